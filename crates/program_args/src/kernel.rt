//! The range of the kernel's image, from the value of `--kernel`. A range in which no image may lie
//! is refused here, so no stage of the boot has to check it.

ghost use Rattle.std.specs.Prelude.{◌≡◌, IfSome};
ghost use Rattle.std.specs.Option.{option_copied};
ghost use Rattle.boot_model.specs.Kernel.{IsKernel};
ghost use Rattle.program_args.specs.Kernel.{kernel_range_in, kernel_range_of};

use crate::mirrors::base_size_range;
use bm_base::{Range, Width};
use boot_model::is_kernel;

/// The range of the kernel's image if `--kernel` isn't given: 32 MiB from 16 MiB on
/// (`CONFIG_PHYSICAL_START`).
const DEFAULT_KERNEL: Range = Range {
    base: 0x100_0000,
    size: 0x200_0000,
};

/// Returns the range of the kernel's image that `value`, of the form `BASE,SIZE`, gives, or the
/// default if `--kernel` isn't given (`value` is `None`). Returns `None` if `value` has another
/// form, or if no image may lie in the range. The range must begin at or above 1 MiB, end at or
/// below the limit of physical addresses, and consist of at least two whole frames.
pub fn kernel_range_of(value: Option<&str>, width: Width) -> Option<Range>
    ensures value { result ≡ kernel_range_of width (option_copied value.entry) }
    ensures facts { IfSome result (IsKernel width) }
{
    match value {
        Some(text) => kernel_range_in(text.as_bytes(), width),
        None => Some(DEFAULT_KERNEL),
    }
}

/// Returns the range that the text `BASE,SIZE` gives, or `None` if the text has another form or no
/// kernel's image may lie in the range (`is_kernel`).
fn kernel_range_in(text: &[u8], width: Width) -> Option<Range>
    ensures value { result ≡ kernel_range_in width text.now }
    ensures facts { IfSome result (IsKernel width) }
{
    let kernel = base_size_range(text)?;
    if is_kernel(&kernel, width) {
        Some(kernel)
    } else {
        None
    }
}
