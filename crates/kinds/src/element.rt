ghost use Rattle.std.specs.Prelude.{◌≡◌, T, ◌↔◌};
ghost use Rattle.kinds.specs.Group.{Group};

// A kind of element: each element means one value of a commutative group.
pub trait Element: Sized + Drop {
    ghost group: { Group };

    ghost meaning: { Self → group.Value };

    fn zero() -> Self
        ensures { meaning result ≡ group.nil };

    fn sum(&self, other: &Self) -> Self
        ensures { meaning result ≡ group.plus (meaning self.now) (meaning other.now) };

    fn opposite(&self) -> Self
        ensures { meaning result ≡ group.minus (meaning self.now) };

    fn same(&self, other: &Self) -> bool
        ensures { T result ↔ (meaning self.now ≡ meaning other.now) };
}
