// The lent list of line offsets.
ghost use Rattle.std.specs.Prelude.{◌≡◌, length, replicate};

// Clears the list.
pub fn clear(list: &mut [u32])
    ensures { list.new ≡ replicate (length list.old) 0 }
{
    list.fill(0);
}
