// The blocks of texts at the borders of their classes.

use crate::tester::{Subject, Tester, write_number, write_text};
use std::alloc::Global;
use text_region::{Region, class_of};

// The lengths of texts, and the class of the block that each lies in.
const LENGTHS: &str = "0 => 0
1 => 0
16 => 0
17 => 1
20 => 1
21 => 2
24 => 2
25 => 3
28 => 3
29 => 4
32 => 4
33 => 5
40 => 5
41 => 6
48 => 6
49 => 7
56 => 7
57 => 8
64 => 8
65 => 9
80 => 9
81 => 10
112 => 11
113 => 12
128 => 12
129 => 13
224 => 15
225 => 16
256 => 16
257 => 17
768 => 22
769 => 23
1792 => 27
1793 => 28
4096 => 32
4097 => 33
14336 => 39
14337 => 40
32768 => 44
32769 => 45
98304 => 50
98305 => 51
262144 => 56
262145 => 57
655360 => 61
655361 => 62
1048576 => 64
1048577 => 65
3145728 => 70
3145729 => 71
4194304 => 72
4194305 => 73
7340032 => 75
7340033 => 76
8388608 => 76
8388609 => 77
16777216 => 80
16777217 => 81
29360128 => 83
29360129 => 84
33554432 => 84";

#[derive(Drop)]
struct Classes;

impl Subject for Classes {
    fn answer(&mut self, alloc: Global, given: &str, found: &mut Vec<u8>) -> Option<()> {
        let length = given.parse().ok()?;
        if length > 33_554_432 {
            return None;
        }
        write_number(alloc, "", u64::from(class_of(length)), found)
    }
}

// A region, and a text, of which each row takes as many bytes as it says. The blocks of longer texts take more memory than a test should.
#[derive(Drop)]
struct Blocks {
    region: Region,
    text: String,
}

impl Subject for Blocks {
    // Writes the class of the block in which a text is placed and freed, where the text is long enough: the class has one block after each.
    fn answer(&mut self, alloc: Global, given: &str, found: &mut Vec<u8>) -> Option<()> {
        let length = given.parse().ok()?;
        if length > 33_554_432 {
            return None;
        }
        let class = class_of(length);
        if let Some(front) = self.text.as_bytes().get(..length) {
            if !is_used_again(&mut self.region, front, class)? {
                return write_text("other blocks", found);
            }
        }
        write_number(alloc, "", u64::from(class), found)
    }
}

// Places a text and frees it, and says whether its class had one block, in use in between and free behind; None where memory is refused.
fn is_used_again(region: &mut Region, text: &[u8], class: u8) -> Option<bool> {
    if text.len() > 33_554_432 || class >= 85 {
        return None;
    }
    let piece = region.place(text).ok()?;
    let placed = region.read(&piece) == text && region.live(class) == 1 && region.made(class) == 1;
    region.free(piece);
    Some(placed && region.live(class) == 0 && region.made(class) == 1)
}

// A new region, and a text of 4,194,320 bytes.
fn make_blocks(alloc: Global) -> Option<Blocks> {
    let text = "a text of 65 bytes, of which each row takes as many as it says ..";
    let region = Region::new(alloc).ok()?;
    let Ok(text) = text.repeat(alloc, 64_528) else {
        drop(region);
        return None;
    };
    Some(Blocks { region, text })
}

pub(crate) fn try_regions(tester: &mut Tester<'_>) {
    tester.try_rows("lengths have their classes", LENGTHS, &mut Classes);
    match make_blocks(tester.alloc()) {
        Some(mut blocks) => {
            tester.try_rows("a free block is used again", LENGTHS, &mut blocks);
            drop(blocks);
        }
        None => tester.try_text("a free block is used again", LENGTHS, None),
    }
}
