// Framing, records, replies and commands on the wire, and the rows of worked examples.
ghost use Rattle.std.specs.Prelude.{ℕ, ◌+◌, ◌≤◌, ◌<◌, ◌≡◌, List, [], ◌∷◌, ◌++◌, length, get_or, take};
ghost use Rattle.field.specs.Fields.{Bytes};
ghost use Rattle.framing.specs.Agreement.{ReadBack};
ghost use Rattle.framing.specs.Decode.{State, quiet, message, base, outcomes};
ghost use Rattle.framing.specs.Delivery.{Delivered};
ghost use Rattle.framing.specs.Encode.{wrote, encoded};
ghost use Rattle.framing.specs.Soundness.{new, Ends, Sound};
ghost use Rattle.framing.specs.Stuffing.{Ready};
ghost use Rattle.records.specs.declared.RawFrame.{RawFrame};
ghost use Rattle.records.specs.Record.{send_head, send_encoded, received_encoded};
ghost use Rattle.records.specs.RoundTrip.{Returned};
ghost use Rattle.replies.specs.Bem.{Response, response_of};
ghost use Rattle.replies.specs.Layout.{layout, InRange, Whole};
ghost use Rattle.commands.specs.Command.{sent, set_pcodes, read_f2};
ghost use Rattle.commands.specs.PairBack.{PairBack};
ghost use Rattle.claims.specs.Arrival.{Arrives};
ghost use Rattle.claims.specs.Rows.{Rows};

/// The frame of any message, fed to a decoder with no escape open, any count up to 1,024 and any buffer of 1,024 bytes or more: no
/// event before the last byte, there that message; idle and count 0 after it; the payload handed back is the payload.
pub fn delivery()
    ensures { (s : State) (cmd : ℕ) (payload : List ℕ) → Ready base s → length payload ≤ 255 → Delivered s cmd payload }
{}

/// Over every stream of bytes fed to a new decoder. Where a message event stands, the bytes so far end with the frame of that message,
/// which starts at the latest frame start that the decoder took, and its payload is the one handed back. Where the bytes so far end with
/// a frame that starts with no DLE open, that message event stands.
pub fn soundness()
    ensures told { (buf fed : List ℕ) (i cmd n : ℕ) → 1024 ≤ length buf → Bytes fed → i < length fed
        → get_or (outcomes (new buf) fed) i quiet ≡ message cmd n → Sound (new buf) (take (i + 1) fed) cmd n }
    ensures ends { (buf fed : List ℕ) (i cmd n : ℕ) → 1024 ≤ length buf → Bytes fed → i < length fed
        → Ends (new buf) (take (i + 1) fed) cmd n → get_or (outcomes (new buf) fed) i quiet ≡ message cmd n }
{}

/// What `encode_ngt_message` wrote into any output, `push_bytes` reads back from it: it uses just the bytes written and gives the
/// message with its payload.
#[tactic(auto, using(crate::specs::Framing::agreement))]
pub fn agreement()
    ensures { (s : State) (cmd : ℕ) (payload out : List ℕ) (n d : ℕ) (o : List ℕ) → Ready base s
        → encoded cmd payload out ≡ wrote n d o → ReadBack s cmd payload o n }
{}

/// A received record that was written into any output, unframed and read by `to_raw_frame` and `frame_data`, is the same record, where its
/// PGN has 24 bits and its time 32: just the bytes written are used, in one message with command 93.
#[tactic(auto, using(crate::specs::Records::record_returns))]
pub fn record_returns()
    ensures { (s : State) (f : RawFrame) (d out : List ℕ) (n k : ℕ) (o : List ℕ) → Ready base s → f.pgn < 16777216 → f.timestamp < 4294967296
        → received_encoded f d out ≡ wrote n k o → Returned s f d o n }
{}

/// A frame for the bus that was written arrives: just the bytes written are used, in one message with command 94, and its payload is the
/// frame's head and its data.
#[tactic(auto, using(crate::specs::Records::frame_arrives))]
pub fn frame_arrives()
    ensures { (s : State) (f : RawFrame) (d out : List ℕ) (n k : ℕ) (o : List ℕ) → Ready base s → send_encoded f d out ≡ wrote n k o
        → ReadBack s 0x94 (send_head f (length d) ++ d) o n }
{}

/// Every reply whose fields fit their bytes is read back from its layout.
#[tactic(auto, using(crate::specs::Replies::reading))]
pub fn reading()
    ensures { (r : Response) → InRange r → response_of (layout r) ≡ r }
{}

/// Every payload of 12 bytes or more is the layout of what is read from it: nothing is lost or made up.
#[tactic(auto, using(crate::specs::Replies::nothing_lost))]
pub fn nothing_lost()
    ensures { (s : List _) → Whole s → layout (response_of s) ≡ s }
{}

/// There is no other way to read a reply.
pub fn no_other_reading()
    ensures { (f : List _ → Response) → ((r : Response) → InRange r → f (layout r) ≡ r) → (s : List _) → Whole s → f s ≡ response_of s }
{}

/// A reply that the gateway frames, fed to the decoder with any bytes after it, arrives: one message at the frame's last byte, and what is
/// read from the payload handed back is the reply, with the mode that it reports.
pub fn arrival()
    ensures { (s : State) (r : Response) (rest : List _) → Ready base s → InRange r → length (layout r) ≤ 255 → Arrives s r rest }
{}

/// A command that was written, unframed by the base decoder, is that command and nothing else.
#[tactic(auto, using(crate::specs::Commands::command_arrives))]
pub fn command_arrives()
    ensures { (s : State) (payload out : List ℕ) (n d : ℕ) (o : List ℕ) → Ready base s → sent payload out ≡ wrote n d o → ReadBack s 0xA1 payload o n }
{}

/// The same of the port P-codes, whose number has a limit: 13, their count, and each of them.
#[tactic(auto, using(crate::specs::Commands::pcodes_arrive))]
pub fn pcodes_arrive()
    ensures { (s : State) (ports out : List ℕ) (n d : ℕ) (o : List ℕ) → Ready base s → set_pcodes ports out ≡ wrote n d o
        → ReadBack s 0xA1 (0x13 ∷ length ports ∷ ports) o n }
{}

/// The pair of Format 2 arrives as two messages, 40 and then 4F, the second from the byte after the first's last.
#[tactic(auto, using(crate::specs::Commands::pair_arrives))]
pub fn pair_arrives()
    ensures { (s : State) (out : List ℕ) (n d : ℕ) (o : List ℕ) → Ready base s → read_f2 out ≡ wrote n d o → PairBack s (0x40 ∷ []) (0x4F ∷ []) o n }
{}

/// The rows of worked examples, for a new decoder over any buffer that is not refused: frames and streams with what is told of them, the
/// error of a reply, and a map.
pub fn rows()
    ensures { (buf : List ℕ) → 1024 ≤ length buf → Rows buf }
{}
