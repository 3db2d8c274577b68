// The slot of a term, and the text in a slot.

ghost use Rattle.std.specs.Prelude.{◌≡◌, ◌≢◌, None, Some, IfSome, IfNone, IsTrue, ◌↔◌};
ghost use Rattle.std.specs.List.{All};
ghost use Rattle.rdf_term.specs.Text.{term_text};
ghost use Rattle.term_pool.specs.Pool.{LiesIn, IsNowhere, text_in_slot};

use crate::hash::term_hash;
use crate::matcher::is_text_of;
use crate::pool::Pool;
use crate::slot::Slot;
use rdf_term::Term;
use text_region::Region;

impl Pool {
    /// The slot of a term, if it is there. It takes no memory: the term's canonical text is hashed and compared piece by
    /// piece, and not written.
    pub fn find(&self, region: &Region, term: &Term) -> Option<Slot>
        requires { LiesIn self.now region.now }
        ensures found { IfSome result (λ slot. text_in_slot self.now region.now slot.number ≡ Some (term_text term.now)) }
        ensures nowhere { IfNone result (IsNowhere self.now region.now (term_text term.now)) }
    {
        let hash = term_hash(&self.keys, term);
        if let Some(number) = self.by_hash.get(&hash) {
            if self.has_term(region, *number, term) {
                return Some(Slot { number: *number });
            }
        }
        self.find_more_terms(region, term)
    }

    /// The canonical text of the term in the slot of this number, where one is there. It takes no memory.
    pub fn text_at<'a>(&self, region: &'a Region, number: u32) -> Option<&'a [u8]>
        requires { LiesIn self.now region.now }
        ensures found { IfSome result (λ text. text_in_slot self.now region.now number ≡ Some text.now) }
        ensures none { IfNone result (text_in_slot self.now region.now number ≡ None) }
    {
        match self.slots.get(number as usize) {
            Some(entry) => {
                let place = entry.piece();
                Some(region.read(&place))
            }
            None => None,
        }
    }

    // Whether this term is in the slot of this number. It takes no memory.
    fn has_term(&self, region: &Region, number: u32, term: &Term) -> bool
        requires { LiesIn self.now region.now }
        ensures { IsTrue result ↔ (text_in_slot self.now region.now number ≡ Some (term_text term.now)) }
    {
        match self.slots.get(number as usize) {
            Some(entry) => {
                let place = entry.piece();
                is_text_of(region.read(&place), term)
            }
            None => false,
        }
    }

    // The slot of a term among those whose hash points at another one.
    fn find_more_terms(&self, region: &Region, term: &Term) -> Option<Slot>
        requires { LiesIn self.now region.now }
        ensures found { IfSome result (λ slot. text_in_slot self.now region.now slot.number ≡ Some (term_text term.now)) }
        ensures nowhere { IfNone result (All (λ number. text_in_slot self.now region.now number ≢ Some (term_text term.now)) self.now.more.items) }
    {
        for number in &self.more {
            if self.has_term(region, *number, term) {
                return Some(Slot { number: *number });
            }
        }
        None
    }
}
