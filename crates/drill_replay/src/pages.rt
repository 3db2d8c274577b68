// The pages of an item.

ghost use Rattle.std.specs.Prelude.{◌≡◌, IfOk, string_bytes};
ghost use Rattle.drill_replay.specs.Drill.{claims, earlier_page, later_page, page_front, page_of};

use base::OutOfMemory;
use std::alloc::Global;

/// The page at a revision: an odd revision has only a label, and an even one also has a statement.
pub fn page(alloc: Global, rev: u64) -> Result<String, OutOfMemory>
    ensures { IfOk result (λ page. string_bytes page ≡ page_of rev) }
{
    if rev % 2 == 0 {
        later_page(alloc, rev / 2)
    } else {
        earlier_page(alloc, rev / 2 + 1)
    }
}

// The page with a label alone.
fn earlier_page(alloc: Global, number: u64) -> Result<String, OutOfMemory>
    ensures { IfOk result (λ page. string_bytes page ≡ earlier_page number) }
{
    let front = page_front(alloc, number)?;
    Ok(format!(in alloc; "{front}}}")?)
}

// The page with a statement.
fn later_page(alloc: Global, number: u64) -> Result<String, OutOfMemory>
    ensures { IfOk result (λ page. string_bytes page ≡ later_page number) }
{
    let front = page_front(alloc, number)?;
    let claims = claims(alloc, number, number % 7, number % 3)?;
    Ok(format!(in alloc; "{front}{claims}}}")?)
}

// The page up to its last brace, without claims.
#[tactic(auto, unfolding(crate::specs::Drill::page_front))]
fn page_front(alloc: Global, number: u64) -> Result<String, OutOfMemory>
    ensures { IfOk result (λ front. string_bytes front ≡ page_front number) }
{
    Ok(format!(in alloc;
        r#"{{"type":"item","id":"Q{number}","labels":{{"en":{{"language":"en","value":"item {number}"}}}}"#
    )?)
}

// The member with the claims.
#[tactic(auto, unfolding(crate::specs::Drill::claims))]
fn claims(alloc: Global, number: u64, amount: u64, source: u64) -> Result<String, OutOfMemory>
    ensures { IfOk result (λ member. string_bytes member ≡ claims number amount source) }
{
    Ok(format!(in alloc;
        r#","claims":{{"P1":[{{"mainsnak":{{"snaktype":"value","property":"P1","datavalue":{{"type":"quantity","value":{{"amount":"+{amount}","unit":"1"}}}}}},"id":"Q{number}$1","rank":"normal","references":[{{"hash":"{source}","snaks":{{"P2":[{{"snaktype":"value","property":"P2","datavalue":{{"type":"string","value":"source {source}"}}}}]}}}}]}}]}}"#
    )?)
}
