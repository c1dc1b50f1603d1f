//! What the types of a call's parts say of their ranges.

ghost use Rattle.std.specs.Prelude.{◌<◌, ◌^◌, All};
ghost use Rattle.kernel_model.specs.Valid.{IsValidCall};

use kern_ids::calls::Call;

// A number has 32 bits.
fn number_bound(n: u32)
    ensures { n < 2 ^ 32 }
{}

// Bytes are below 256.
fn byte_bounds(bytes: &[u8])
    ensures { All (λ b. b < 256) bytes.now }
{}

// The numbers and bytes of every call are in their ranges.
pub(crate) fn valid_call(call: &Call)
    ensures { IsValidCall call.now }
{
    match call {
        Call::Write { off, bytes, .. } => {
            number_bound(*off);
            byte_bounds(bytes.as_slice());
        }
        Call::Read { off, len, .. } => {
            number_bound(*off);
            number_bound(*len);
        }
        Call::SetState { word, .. } => number_bound(*word),
        Call::SetBand { band, .. } => {
            let _band = band.get();
        }
        _ => (),
    }
}
