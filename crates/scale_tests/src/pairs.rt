// The sum and the product of two values, for tests of any scale.
use scales::Scale;
use std::fmt::Debug;
use std::process::Abort;

// The sum and the product of two values mean what is expected, whichever of the two is first; `read` reads what a value means.
pub(crate) fn check_pair<S: Scale, M: PartialEq + Debug + Copy, F: Fn(S) -> M + Drop>(
    rt: &impl Abort,
    read: F,
    a: S,
    b: S,
    sum: M,
    product: M,
)
    requires { F.IsAlwaysCallable read }
{
    assert_eq!(rt; read(a.sum(b)), sum);
    assert_eq!(rt; read(b.sum(a)), sum);
    assert_eq!(rt; read(a.product(b)), product);
    assert_eq!(rt; read(b.product(a)), product);
}
