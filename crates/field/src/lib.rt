#![tactic(auto)]

ghost use Rattle.std.specs.Prelude.{◌≡◌, ℕ, Some, None};
ghost use Rattle.field.specs.Field.{Ops, Laws, Inverted};

// A field kind. Its meaning is a carrier `K` with the operations `ops`, which keep the laws;
// `mean` says which element a value stands for, and `reduced` which values are the ones that
// operations answer. Two reduced values that stand for one element are the same value.
pub trait Field: Copy {
    ghost K: { Type 0 };

    ghost ops: { Ops K };

    ghost mean: { Self → K };

    ghost reduced: { Self → Type 0 };

    ghost SPAN: { ℕ };

    // No power of gamma with an exponent from 1 to `SPAN` is one.
    const SPAN: u32;

    fn zero() -> Self
        ensures means { mean result ≡ ops.nil }
        ensures tidy { reduced result };

    fn one() -> Self
        ensures means { mean result ≡ ops.one }
        ensures tidy { reduced result };

    fn gamma() -> Self
        ensures means { mean result ≡ ops.gamma }
        ensures tidy { reduced result };

    fn plus(self, other: Self) -> Self
        ensures means { mean result ≡ ops.add (mean self) (mean other) }
        ensures tidy { reduced result };

    fn neg(self) -> Self
        ensures means { mean result ≡ ops.neg (mean self) }
        ensures tidy { reduced result };

    fn times(self, other: Self) -> Self
        ensures means { mean result ≡ ops.mul (mean self) (mean other) }
        ensures tidy { reduced result };

    // The inverse, or `None` exactly at zero.
    fn inverse(self) -> Option<Self>
        ensures means { elim result [ None ↦ mean self ≡ ops.nil | Some v ↦ Inverted ops (mean self) (mean v) ] }
        ensures tidy { elim result [ None ↦ Unit {0} | Some v ↦ reduced v ] };

    // Whether both stand for one element.
    fn same(self, other: Self) -> bool
        ensures { result ≡ ops.same (mean self) (mean other) };

    // Whether it stands for the zero element.
    final fn is_zero(self) -> bool
        ensures { result ≡ ops.same (mean self) ops.nil }
    {
        self.same(Self::zero())
    }

    ghost lawful: { Laws ops };

    ghost spans: { SPAN ≡ ops.span };

    ghost canonical: { (x y : Self) → reduced x → reduced y → mean x ≡ mean y → x ≡ y };
}

// A field kind whose values are written as words of 32 bits.
pub trait Encoded: Field {
    // the value that a word stands for
    ghost element: { ℕ → Self };

    // the word that is written for a value
    ghost spelling: { Self → ℕ };

    fn from_word(word: u32) -> Self
        ensures { result ≡ element word };

    fn to_word(self) -> u32
        ensures { result ≡ spelling self };

    ghost spelled: { (x : Self) → Self.Field.mean (element (spelling x)) ≡ Self.Field.mean x };

    // Values that stand for one element have one word.
    ghost one_spelling: { (x y : Self) → Self.Field.mean x ≡ Self.Field.mean y → spelling x ≡ spelling y };
}
