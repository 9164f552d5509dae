//! The handlers with which a world opens.

use scoop_message::HandlerId;
use scoop_object::{Behaviour, Class};

/// A handler as it is placed: its node, its number, and its object with the object's class.
#[derive(Drop)]
pub struct Placement<B: Behaviour> {
    pub node: u32,
    pub handler: HandlerId,
    pub class: Class,
    pub object: B,
}
