// The first line of a record.

ghost use Rattle.std.specs.Prelude.{◌≡◌, ◌↔◌, ◌<◌, ◌^◌, ◌++◌, ◌∷◌, ℕ, List, IfOk, MatchOption, Some, string_bytes};
ghost use Rattle.std.specs.Fmt.{decimal};
ghost use Rattle.replica.specs.{declared.head.Head.Head as TheHead, Head.HasNoSpace, Head.IsHead, Head.head_line};

use rdf_term::OutOfMemory;
use std::alloc::Global;

/// What the first line of a record says: its number, and how many triples it adds and removes.
#[derive(Clone, Copy, Drop)]
pub struct Head {
    pub number: u64,
    pub adds: u64,
    pub removes: u64,
}

impl Head {
    /// The line, without its line feed.
    #[tactic(auto, unfolding(crate::specs::Head::head_line))]
    pub fn line(&self, alloc: Global) -> Result<String, OutOfMemory>
        ensures { IfOk result (λ line. string_bytes line ≡ head_line self.now) }
    {
        let Head {
            number,
            adds,
            removes,
        } = *self;
        Ok(format!(in alloc; "# patch {number} +{adds} -{removes}")?)
    }

    /// The head whose line this is, if it is one.
    pub fn read(alloc: Global, line: &[u8]) -> Result<Option<Head>, OutOfMemory>
        ensures { IfOk result (λ found. (head : TheHead) → (found ≡ Some head) ↔ IsHead line.now head) }
    {
        let Ok(text) = str::from_utf8(line) else {
            return Ok(None);
        };
        let Some(head) = numbers_in(text) else {
            return Ok(None);
        };
        let written = head.line(alloc)?;
        if head.number > 0 && written.as_str() == text {
            Ok(Some(head))
        } else {
            Ok(None)
        }
    }
}

// The three words of a head's line that have its numbers.
#[derive(Drop)]
struct NumberWords<'a> {
    number: &'a str,
    adds: &'a str,
    removes: &'a str,
}

// A text up to its first space, and what stands behind it.
#[derive(Drop)]
struct Parts<'a> {
    word: &'a str,
    rest: &'a str,
}

// The numbers of the head whose line this is; of any other text they are some numbers, or there are none.
fn numbers_in(text: &str) -> Option<Head>
    ensures { (head : TheHead) → IsHead text.now head → result ≡ Some head }
{
    let words = number_words(text)?;
    let number = number(words.number)?;
    let adds = signed_number(words.adds, '+')?;
    let removes = signed_number(words.removes, '-')?;
    Some(Head {
        number,
        adds,
        removes,
    })
}

// The words of a head's line that have its numbers.
fn number_words(text: &str) -> Option<NumberWords<'_>>
    ensures { (head : TheHead) → IsHead text.now head → MatchOption result ⊥ (λ words.
        (words.number.now ≡ decimal head.number) × (words.adds.now ≡ 43 ∷ decimal head.adds) × (words.removes.now ≡ 45 ∷ decimal head.removes)) }
{
    let mark = first_word(text)?;
    let name = first_word(mark.rest)?;
    let number = first_word(name.rest)?;
    let adds = first_word(number.rest)?;
    Some(NumberWords {
        number: number.word,
        adds: adds.word,
        removes: adds.rest,
    })
}

// The text up to its first space, and what stands behind it.
fn first_word(text: &str) -> Option<Parts<'_>>
    ensures { (word rest : List ℕ) → HasNoSpace word → text.now ≡ word ++ 32 ∷ rest → MatchOption result ⊥ (λ parts. (parts.word.now ≡ word) × (parts.rest.now ≡ rest)) }
{
    let (word, rest) = text.split_once(' ')?;
    Some(Parts { word, rest })
}

// The number that is written behind the sign.
fn signed_number(text: &str, sign: char) -> Option<u64>
    requires { sign < 128 }
    ensures { (n : ℕ) → n < 2 ^ 64 → text.now ≡ sign ∷ decimal n → result ≡ Some n }
{
    let digits = text.strip_prefix(sign)?;
    number(digits)
}

// The number that is written so.
fn number(digits: &str) -> Option<u64>
    ensures { (n : ℕ) → n < 2 ^ 64 → digits.now ≡ decimal n → result ≡ Some n }
{
    digits.parse().ok()
}
