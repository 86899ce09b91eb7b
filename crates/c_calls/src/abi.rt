//! The number of the interface, in the name of a call.
ghost use Rattle.std.specs.Prelude.{◌≡◌};

/// Answers 3, the number of the interface that `bindings/c/volgwain.h` declares.
///
/// The header and the crate for Rust refer to this name, so a library of another interface does not link.
#[unsafe(no_mangle)]
pub extern "C" fn volgwain_abi_3() -> u32
    ensures { result ≡ 3 }
{
    3
}
