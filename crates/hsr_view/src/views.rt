//! What can be asked for of a run.
use hsr_diagram::Span;

/// What is to be shown of a run.
#[derive(Drop)]
pub enum What<'a> {
    /// A capture: of one link, counted from 0, or of all; of the copies of one send, by the name of its node and its
    /// place in that node's record, or of all.
    Capture {
        link: Option<usize>,
        send: Option<(&'a str, usize)>,
    },
    /// A picture: of the copies of some sends, each by the name of its node and its place in that node's record, or of
    /// all; of those that are of a span.
    Picture {
        sends: Vec<(&'a str, usize)>,
        span: Span,
    },
    /// A page: of the same copies as a picture, under a title.
    Page {
        sends: Vec<(&'a str, usize)>,
        span: Span,
        title: &'a str,
    },
    /// The devices.
    Devices,
}
