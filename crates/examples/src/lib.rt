//! Small listings to hand, as bytes, each with the routine that it is. Tests of load and write stand below them.
#![tactic(auto)]

ghost use Rattle.std.specs.Prelude.{◌≡◌, [], ◌∷◌, Ok};
ghost use Rattle.rules.specs.declared.Node.TheVariants.{Constant, Move, Operate, Read, Write, While, EndWhile};
ghost use Rattle.rules.specs.declared.Operator.TheVariants.{Quotient};
ghost use Rattle.listing.specs.Reading.{listing_read};
ghost use Rattle.examples.specs.Listed.{listed, cells};

#[cfg(test)]
mod tests;

/// No scalar, no array and no node.
pub fn empty_routine() -> &'static [u8]
    ensures { listing_read result.now ≡ Ok (listed 0 [] []) }
{
    b"   0 H          0          0          0           \n"
}

/// A table look-up by scalar 0, which is then overwritten.
pub fn table_lookup() -> &'static [u8]
    ensures { listing_read result.now ≡ Ok (listed 2 (cells 0 4) (Read 1 0 0 ∷ (Constant 0 7 ∷ []))) }
{
    b"   0 H          2          1          2           \n   0 A          0          4                      \n   0 R          1          0          0           \n   1 K          0          7                      \n"
}

// The look-ups differ in a few columns. Each is a text of its own, since a text that is put together has to be allocated.

/// The same look-up in four cells from cell 14 on.
pub fn lookup_from_fourteen() -> &'static [u8]
    ensures { listing_read result.now ≡ Ok (listed 2 (cells 14 4) (Read 1 0 0 ∷ (Constant 0 7 ∷ []))) }
{
    b"   0 H          2          1          2           \n   0 A         14          4                      \n   0 R          1          0          0           \n   1 K          0          7                      \n"
}

/// The same look-up in four cells from cell 6 on.
pub fn lookup_from_six() -> &'static [u8]
    ensures { listing_read result.now ≡ Ok (listed 2 (cells 6 4) (Read 1 0 0 ∷ (Constant 0 7 ∷ []))) }
{
    b"   0 H          2          1          2           \n   0 A          6          4                      \n   0 R          1          0          0           \n   1 K          0          7                      \n"
}

/// Scalar 0 is overwritten before the look-up.
pub fn lookup_after_constant() -> &'static [u8]
    ensures { listing_read result.now ≡ Ok (listed 2 (cells 0 4) (Constant 0 7 ∷ (Read 1 0 0 ∷ []))) }
{
    b"   0 H          2          1          2           \n   0 A          0          4                      \n   0 K          0          7                      \n   1 R          1          0          0           \n"
}

/// A while that copies scalar 1 into its own condition.
pub fn copying_loop() -> &'static [u8]
    ensures { listing_read result.now ≡ Ok (listed 2 (cells 0 4) (While 0 2 ∷ (Move 0 1 ∷ (EndWhile 0 ∷ [])))) }
{
    b"   0 H          2          1          3           \n   0 A          0          4                      \n   0 L          0          2                      \n   1 M          0          1                      \n   2 J          0                                 \n"
}

/// A store at the index in scalar 0.
pub fn indexed_store() -> &'static [u8]
    ensures { listing_read result.now ≡ Ok (listed 2 (cells 0 4) (Write 0 0 1 ∷ [])) }
{
    b"   0 H          2          1          1           \n   0 A          0          4                      \n   0 W          0          0          1           \n"
}

/// Scalar 1 becomes scalar 0 divided by scalar 1.
pub fn quotient() -> &'static [u8]
    ensures { listing_read result.now ≡ Ok (listed 2 (cells 0 4) (Operate 1 Quotient 0 1 ∷ [])) }
{
    b"   0 H          2          1          1           \n   0 A          0          4                      \n   0 O          1          8          0          1\n"
}
