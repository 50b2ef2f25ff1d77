ghost use Rattle.std.specs.Prelude.{◌≡◌, ◌≤◌};
ghost use Rattle.sharing.specs.Format.{body_length};

// How many bytes hold so many codes of so many bits.
pub(crate) fn body_length(width: u32, slips: usize) -> usize
    requires { (width ≤ 32) × (slips ≤ 2016) }
    ensures { result ≡ body_length width slips }
{
    (width as usize * slips + 7) / 8
}
