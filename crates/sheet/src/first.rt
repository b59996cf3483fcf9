// The first train's beginnings after an addition.
ghost use Rattle.std.specs.Prelude.{◌≡◌, cond, eqb, length};

// On a sheet without trains the kept beginnings become this train's.
pub(crate) fn keep_first(trains: u64, first: &mut [u64], begins: &[u64])
    requires { length first.old ≡ length begins.now }
    ensures { first.new ≡ cond (eqb trains 0) begins.now first.old }
{
    if trains == 0 {
        first.copy_from_slice(begins);
    }
}
