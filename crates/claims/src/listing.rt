// The program listing: what it writes is the listing of its input.
ghost use Rattle.std.specs.Prelude.{ℕ, ◌+◌, ◌^◌, ◌≤◌, ◌<◌, ◌≡◌, List, [], ◌∷◌, ◌++◌, map, length};
ghost use Rattle.field.specs.Ascii.{ascii};
ghost use Rattle.framing.specs.Decode.{state};
ghost use Rattle.framing.specs.declared.Phase.TheVariants.{Idle};
ghost use Rattle.report.specs.Calls.{Chunk, input, chunked};
ghost use Rattle.report.specs.Line.{bem_of};
ghost use Rattle.report.specs.Listing.{listing};

/// However the input is cut into chunks, and whatever stood in the output, the calls of `list_lines`, each with the bytes that the one
/// before left, write the listing of the whole input.
#[tactic(auto, using(crate::specs::Listing::listing_written))]
pub fn listing_written()
    ensures { (buf : List ℕ) (chunks : List Chunk) → 1024 ≤ length buf → 2 + length (input chunks) < 2 ^ 64
        → (chunked 1 0 (state Idle 0 buf) chunks).text ≡ listing 1 0 (state Idle 0 buf) (input chunks) }
{}

/// The table of ten reply bytes and their names, and other for any other byte.
#[tactic(auto, using(crate::specs::Listing::names))]
pub fn names()
    ensures { map (λ b. bem_of 0xA0 (b ∷ [])) (0x11 ∷ 0x13 ∷ 0x40 ∷ 0x41 ∷ 0x47 ∷ 0x49 ∷ 0x4F ∷ 0xF0 ∷ 0xF1 ∷ 0xF4 ∷ 0x12 ∷ [])
        ≡ ascii "mode" ∷ ascii "pcode" ∷ ascii "supported" ∷ ascii "product-info" ∷ ascii "enable" ∷ ascii "tx-list-f1" ∷ ascii "tx-list-f2" ∷ ascii "startup" ∷ ascii "error" ∷ ascii "nack" ∷ ascii "other" ∷ [] }
{}

/// The program's example: the listing of 10 02 A1 01 41 1D 10 03 10 03 is these two lines.
#[tactic(auto, using(crate::specs::Listing::example))]
pub fn example()
    ensures { (buf : List ℕ) → 1024 ≤ length buf
        → listing 1 0 (state Idle 0 buf) (0x10 ∷ 0x02 ∷ 0xA1 ∷ 0x01 ∷ 0x41 ∷ 0x1D ∷ 0x10 ∷ 0x03 ∷ 0x10 ∷ 0x03 ∷ [])
        ≡ ascii "n=1 at=7 kind=msg cmd=a1 len=1 bem=product-info\n" ++ ascii "n=2 at=9 kind=err no=1\n" }
{}
