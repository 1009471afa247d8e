//! The commands: what each says of the texts of its parts.
#![tactic(auto)]

mod aiming;
mod batching;
mod checking;
mod compiling;
mod judged_batch;
mod live_runs;
mod merging;
mod ordering;
mod page_judging;
mod page_wanted;
mod paging;
mod replaying;
mod sampling;
mod serial_ordering;
mod showing;
mod translating;

pub use aiming::aim;
pub use batching::{Sampler, Sampling, batch};
pub use checking::{check, with_feed};
pub use compiling::count;
pub use judged_batch::{JudgingTexts, judge_batch, judge_batch_like};
pub use live_runs::{live, replay_live};
pub use merging::merge;
pub use ordering::order;
pub use paging::{page, page_with_order};
pub use replaying::replay;
pub use sampling::sample;
pub use serial_ordering::{serial_order, serial_order_like};
pub use showing::{View, names_in, show};
pub use translating::translate;
