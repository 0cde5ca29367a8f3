//! A manager, a greeting and a looker against the frames of a controller.
mod calls;
mod greeting;
mod look;
mod packets;
mod parts;
mod player;
mod replies;
mod scene;
mod wrong;

use std::fmt::Debug;
use std::process::Abort;

/// The value is the one that is wanted.
fn expect_equal<T: Copy + Debug + PartialEq>(rt: &impl Abort, value: T, wanted: T) {
    assert_eq!(rt; value, wanted);
}
