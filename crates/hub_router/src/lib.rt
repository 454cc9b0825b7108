//! The router of a hub, behind turns: what it stands for, a turn of it, and each of its calls in a turn of its own.
#![tactic(auto)]

mod calls;
mod kind;
mod turn;

pub use calls::{
    CloseCall, CollectCall, InterestCall, OpenCall, OptionsCall, PublishCall, RouterCall, SubCall,
    UnsubCall,
};
pub use kind::RouterKind;
pub use turn::{OpenRouter, call_router};
