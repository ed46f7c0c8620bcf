//! A verdict on a plan, whatever the order in which its copies move: certified, or the first doubt, by names of the plan and with a line of
//! its text; and what links and nodes that are off cut off then.
//!
//! Its modules, in the order in which to read them:
//! - `question`: what is asked of a plan
//! - `origin`: where an order of a plan comes from
//! - `part`: the part of a plan that a doubt is about
//! - `place`: in which line of its text a part of a plan stands
//! - `words`: a verdict in words
//! - `verdict`: the verdict on a plan
//! - `law`: what a verdict names is listed in the plan
//! - `certifying`: the verdict over a reader and two writers, its call
#![tactic(auto)]

mod certifying;
mod law;
mod origin;
mod part;
mod place;
mod question;
mod verdict;
mod words;

pub use certifying::certify_plan_run;
pub use law::orders_come_from_occasions;
pub use question::Question;
pub use verdict::{Certification, certification_of};
