// What is asked of a replay.

use arguments::ReplayOptions;
use run_model::Report;
use std::alloc::Global;

// What is asked of a replay: where memory comes from, the options, and what is reported of the deliveries.
#[derive(Clone, Copy)]
pub struct Task<'a> {
    pub alloc: Global,
    pub options: &'a ReplayOptions<'a>,
    pub report: Report,
}
