ghost use Rattle.std.specs.Prelude.{◌≡◌, ◌≤◌};
ghost use Rattle.plans.specs.Binomial.{choose};

// C(n, r), how many ways there are to choose r of n. A plan asks for n up to 10.
pub(crate) fn binomial(n: usize, r: usize) -> usize
    requires { n ≤ 10 }
    ensures value { result ≡ choose n r }
    ensures few { result ≤ 252 }
{
    if r == 0 || r == n {
        return 1;
    }
    if r > n {
        return 0;
    }
    binomial(n - 1, r - 1) + binomial(n - 1, r)
}
