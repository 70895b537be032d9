//! The values that identify a client.
ghost use Rattle.std.specs.Prelude.{◌≡◌, None, OnOk};

use dhcp_frame::option_codes::{
    CLIENT_ARCHITECTURES, MACHINE_IDENTIFIER, MESSAGE_TYPE, USER_CLASS, VENDOR_CLASS,
    VENDOR_OPTIONS,
};
use dhcp_frame::{Frame, JoinedValue};
use std::alloc::{AllocError, Global};

/// The joined values of the options that identify a client.
#[derive(Drop)]
pub(crate) struct Values<'a> {
    pub(crate) message_type: JoinedValue<'a>,
    pub(crate) class: JoinedValue<'a>,
    pub(crate) architectures: JoinedValue<'a>,
    pub(crate) vendor: JoinedValue<'a>,
    pub(crate) identifier: JoinedValue<'a>,
    pub(crate) user_class: JoinedValue<'a>,
}

impl<'a> Values<'a> {
    ghost use Rattle.pxe_vendor.specs.Values.{pushed, values_of};

    #[tactic(auto, using(crate::proofs::ValuesLemmas::push_steps), unfolding(crate::specs::Values::pushed, crate::specs::Values::push_if))]
    fn push(&mut self, alloc: Global, code: u8, value: &'a [u8]) -> Result<(), AllocError>
        ensures { OnOk result (self.new ≡ pushed self.old code value.now) }
    {
        match code {
            MESSAGE_TYPE => self.message_type.push(alloc, value),
            VENDOR_CLASS => self.class.push(alloc, value),
            CLIENT_ARCHITECTURES => self.architectures.push(alloc, value),
            VENDOR_OPTIONS => self.vendor.push(alloc, value),
            MACHINE_IDENTIFIER => self.identifier.push(alloc, value),
            USER_CLASS => self.user_class.push(alloc, value),
            _ => Ok(()),
        }
    }

    /// No values yet.
    pub(crate) fn new() -> Values<'a>
        ensures { result ≡ record { message_type = None; class = None; architectures = None; vendor = None; identifier = None; user_class = None } }
    {
        Values {
            message_type: JoinedValue::new(),
            class: JoinedValue::new(),
            architectures: JoinedValue::new(),
            vendor: JoinedValue::new(),
            identifier: JoinedValue::new(),
            user_class: JoinedValue::new(),
        }
    }

    /// Joins the values in a frame, in one pass over its options. There are none before.
    #[tactic(auto, using(crate::proofs::ValuesLemmas::values_steps))]
    pub(crate) fn join(&mut self, alloc: Global, frame: &Frame<'a>) -> Result<(), AllocError>
        requires { self.old ≡ record { message_type = None; class = None; architectures = None; vendor = None; identifier = None; user_class = None } }
        ensures { OnOk result (self.new ≡ values_of frame.now.entries) }
    {
        for (code, value) in frame.options() {
            self.push(alloc, code, value)?;
        }
        Ok(())
    }
}
