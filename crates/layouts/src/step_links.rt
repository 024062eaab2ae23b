//! The links of a step.
use metadata::Link;

/// A link that is good for a step, with the public key that has signed it.
#[derive(Drop)]
pub(crate) struct Good<'a> {
    pub link: &'a Link,
    pub top: [u8; 56],
}

/// A good link of a step, and whether all of the step's good links agree.
#[derive(Drop)]
pub(crate) struct StepLink<'a> {
    pub link: &'a Link,
    pub agree: bool,
}

/// A good link of each step, in the order of the steps, and whether all agree.
#[derive(Drop)]
pub(crate) struct Found<'a> {
    pub links: Vec<&'a Link>,
    pub agree: bool,
}
