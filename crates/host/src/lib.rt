// What a host's call on a machine does where nothing is refused: bytes of the flat memory and a page, each as a part of the memory where
// it is.
#![tactic(auto)]

pub mod home;
pub mod marks;
pub mod transfer;
pub mod view;
