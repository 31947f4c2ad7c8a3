// The values that a grant fixes, "kept with the state": 64 for each thread, in one array beside the desk.
ghost use Rattle.std.specs.Prelude.{◌≡◌, length};

// The values of thread k.
fn row(held: &[u64; 2048], k: u64) -> &[u64]
    ensures { length result.now ≡ 64 }
{
    let from = (k % 32 * 64) as usize;
    &held[from..from + 64]
}

pub(crate) fn row_mut(held: &mut [u64; 2048], k: u64) -> &mut [u64]
    ensures { length result.now ≡ 64 }
{
    let from = (k % 32 * 64) as usize;
    &mut held[from..from + 64]
}

// All variables, as they are at the grant of thread k.
pub(crate) fn keep(held: &mut [u64; 2048], k: u64, desk: &[u64; 640]) {
    row_mut(held, k).copy_from_slice(&desk[..64]);
}

// The values of thread k as the variables of a desk.
pub(crate) fn lay_out(held: &[u64; 2048], k: u64, desk: &mut [u64; 640]) {
    desk[..64].copy_from_slice(row(held, k));
}
