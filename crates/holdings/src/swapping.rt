// The triples of a page come in the place of those that its entity had.

ghost use Rattle.std.specs.Prelude.{◌≡◌, ◌<◌};
ghost use Rattle.rdf_term.specs.declared.triple.Triple.{Triple};
ghost use Rattle.triple_store.specs.{Counts.count_of, StoreState.IsSound, StoreState.counts_in, Updates.AreStored, Updates.KeepsRest};
ghost use Rattle.fetched_pages.specs.Fetched.{bytes_of};
ghost use Rattle.holdings.specs.Swapped.{IsPageExchange, MaySwap, with_counts};

use crate::kept::PageTimes;
use fetched_pages::{FetchedPage, Wanted, texts_in};
use page_rdf::Counts;
use std::alloc::Global;
use triple_store::{Exchange, KeySlices, Keys, Left, Store, StoreFault, Telling, Told, Uncounted};

/// What an entity has: the keys of its triples, and how many times the triple of each comes, or nothing where that isn't known.
#[derive(Clone, Copy)]
pub struct Had<'a> {
    pub keys: KeySlices<'a>,
    pub times: &'a [u16],
}

/// The revision whose page comes, the version of the mapping by which it is mapped, and what is told of the change of the
/// stored triples.
#[derive(Clone, Copy)]
pub struct SwapSetting {
    pub alloc: Global,
    pub wanted: Wanted,
    pub telling: Telling,
}

/// The keys of the triples of a page, what is known of how often they come, and what is told of how its coming changed the stored
/// triples.
#[derive(Drop)]
pub struct PageExchange {
    pub keys: Keys,
    pub times: Option<PageTimes>,
    pub change: Told,
}

/// Puts the triples of a page in the place of those that its entity had. Where it is known what the page changes, it works on that alone.
/// After a fault every triple has the count that it had.
pub fn exchange_page(
    store: &mut Store,
    had: Had<'_>,
    page: &FetchedPage,
    setting: SwapSetting,
) -> Result<PageExchange, StoreFault>
    requires sound { IsSound store.old }
    requires stored { AreStored store.old had.keys.rising.now }
    requires countable { (t : Triple) → count_of (counts_in store.old) t < 18446744073709551615 }
    requires may_swap { MaySwap store.old had.keys.rising.now had.times.now setting.wanted page.now }
    ensures exchanged { IsPageExchange setting.telling store.old store.new had.entry.keys.rising.now setting.wanted (bytes_of page.now) result }
    ensures rest { KeepsRest store.old store.new }
{
    match page {
        FetchedPage::Whole(page) => {
            let left = Left {
                keys: had.keys,
                counts: &[],
            };
            match store.exchange(left, &page.triples, setting.telling, &mut Uncounted) {
                Ok(done) => Ok(with_counts(done, page.counts)),
                Err(fault) => Err(fault),
            }
        }
        FetchedPage::Changed(page) => {
            match store.times_left(had.keys, had.times, &page.texts.gone) {
                Ok(Some(counts)) => {
                    let left = Left {
                        keys: had.keys,
                        counts: counts.as_slice(),
                    };
                    let exchanged = store.exchange(
                        left,
                        &page.texts.come,
                        setting.telling,
                        &mut Uncounted,
                    );
                    drop(counts);
                    match exchanged {
                        Ok(done) => Ok(with_counts(done, Some(page.texts.counts))),
                        Err(fault) => Err(fault),
                    }
                }
                Ok(None) => exchange_anew(store, had.keys, page.bytes.as_slice(), setting),
                Err(_) => Err(StoreFault::OutOfMemory),
            }
        }
        FetchedPage::Parted(page) => exchange_anew(store, had.keys, page.bytes.as_slice(), setting),
        FetchedPage::Differing(page) => exchange_anew(
            store,
            had.keys,
            page.bytes.as_slice(),
            setting,
        ),
    }
}

// What an exchange gives, with the counts of the page, if it has some.
fn with_counts(done: Exchange, counts: Option<Counts>) -> PageExchange
    ensures { result ≡ with_counts counts done }
{
    let Exchange {
        keys,
        times,
        change,
    } = done;
    let times = match counts {
        Some(counts) => Some(PageTimes { counts, times }),
        None => None,
    };
    PageExchange {
        keys,
        times,
        change,
    }
}

// Maps the page as a whole, and puts its triples in the place of those that its entity had.
fn exchange_anew(
    store: &mut Store,
    old: KeySlices<'_>,
    page: &[u8],
    setting: SwapSetting,
) -> Result<PageExchange, StoreFault>
    requires sound { IsSound store.old }
    requires stored { AreStored store.old old.rising.now }
    requires countable { (t : Triple) → count_of (counts_in store.old) t < 18446744073709551615 }
    ensures exchanged { IsPageExchange setting.telling store.old store.new old.entry.rising.now setting.wanted page.now result }
    ensures rest { KeepsRest store.old store.new }
{
    match texts_in(setting.alloc, setting.wanted, page, None) {
        Ok(mapped) => {
            let left = Left {
                keys: old,
                counts: &[],
            };
            let exchanged = store.exchange(left, &mapped.triples, setting.telling, &mut Uncounted);
            let counts = mapped.counts;
            drop(mapped);
            match exchanged {
                Ok(done) => Ok(with_counts(done, counts)),
                Err(fault) => Err(fault),
            }
        }
        // The bytes are a document, so memory was refused.
        Err(_) => Err(StoreFault::OutOfMemory),
    }
}
