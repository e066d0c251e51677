//! The zero page as an input. Its entries go into an array with room for all of them, so this is
//! the only input file whose bytes are always read without allocating.

ghost use Rattle.std.specs.Prelude.{◌≡◌, ◌≤◌, length};
ghost use Rattle.boot_inputs.specs.Diagnostic.{diagnostic_view};
ghost use Rattle.boot_inputs.specs.ZeroPage.{zero_page, zero_page_diagnostic};

use crate::fault::{Diagnostic, Fault, Misread};
use crate::input::Input;
use crate::reader::Reader;
use boot_model::Inputs;
use e820_table::{ZeroFault, read_zero_page};
use std::alloc::Global;

/// Reads a zero page, and puts its entries, and its initrd if there is one, into the inputs.
pub struct ZeroPages;

impl Reader for ZeroPages {
    ghost file = { zero_page };

    fn input() -> Input {
        Input::ZeroPage
    }

    fn limit() -> u64 {
        4096
    }

    fn read(_alloc: Global, bytes: &[u8], inputs: &mut Inputs) -> Result<(), Misread> {
        match read_zero_page(bytes) {
            Ok(zero) => {
                inputs.zero = zero;
                Ok(())
            }
            Err(fault) => Err(Misread::Fault(Fault::ZeroPage(fault))),
        }
    }

    fn exhaustion_is_no_fault() {}
}

/// Returns what the fault's error line says after `zeropage: `, such as `entry 3 too far`.
pub(crate) fn zero_page_diagnostic(fault: ZeroFault) -> Diagnostic
    ensures { diagnostic_view result ≡ zero_page_diagnostic fault }
{
    match fault {
        ZeroFault::WrongLength => Diagnostic::Whole("wrong length"),
        ZeroFault::TooFew => Diagnostic::Whole("too few entries"),
        ZeroFault::TooMany => Diagnostic::Whole("too many entries"),
        ZeroFault::EntryTooFar { index } => Diagnostic::Far("entry", index),
        ZeroFault::InitrdTooFar => Diagnostic::Whole("initrd too far"),
    }
}
