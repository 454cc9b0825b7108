//! What a hold on a place came to.

use crate::fault::DeskFault;
use js_base::Blob;
use js_model::Reply;

/// What became of what was asked of a place.
#[derive(Drop, Debug)]
pub enum Became {
    /// It was made, and this is its reply.
    Made(Reply),
    /// It was made, and memory or the numbers of the store's generations ran out for its reply.
    Unsaid {
        /// Whether the reply is a refusal.
        refused: bool,
    },
    /// Out of memory: time passed at the place, and what was asked was not made.
    Ticked,
    /// No step was made, since memory or the numbers of turns or generations ran out before it. The state of the place is as it was.
    Nothing,
    /// The volume failed, and the place is stopped now. Whether what was asked outlives a crash is not known.
    Broke {
        /// The name of the stream that stood there, empty if there was none.
        stream: Blob,
    },
    /// The place was stopped before what was asked was made, which may have been as room was to be made for it.
    Stopped {
        /// The name of the stream that stands there, empty if there is none.
        stream: Blob,
    },
    /// The place keeps another incarnation than was asked for.
    Gone,
}

/// What a hold on a place came to.
#[derive(Drop, Debug)]
pub struct Outcome {
    pub became: Became,
    /// Whether a consumer is still ready after a hold that did as much as it may. It means nothing if `fault` is given, and is false if the
    /// place is stopped or keeps another incarnation.
    pub ready: bool,
    /// Why the call of the desk ends with this hold: memory ran out in it, or the numbers of turns or of the
    /// store's generations. The reply is then answered to nobody.
    pub fault: Option<DeskFault>,
}
