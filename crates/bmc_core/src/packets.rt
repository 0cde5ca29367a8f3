//! The assembler of `mctp_net` and the packets of `model_bus` are of one assembly: two laws, and no code.

ghost use Rattle.std.specs.Prelude.{◌≡◌, ◌++◌, ◌∷◌, [], ℕ, true, List, map, None};
ghost use Rattle.mctp_net.specs.declared.packet.Packet.{Packet};
ghost use Rattle.mctp_net.specs.declared.message.Message.{Message};
ghost use Rattle.mctp_net.specs.Sizes.{unit_size};
ghost use Rattle.mctp_net.specs.Cut.{piece, IsCutOf};
ghost use Rattle.mctp_net.specs.Assembly.{Assemblies, name_of, taken_under, drop_cause, after, message_of};
ghost use Rattle.model_bus.specs.Packet.{packets_of, unit_size as model_unit_size};
ghost use Rattle.model_bus.specs.Assembly.{Name as ModelName, SentPacket, takes, waiting, message_of as model_message_of};
ghost use Rattle.bmc_core.specs.Seen.{seen, seen_name, AreSeen, WaitsAlike, AgreesWithJoin, model_after};

/// A packet's step under its name is the model's, and afterwards the same waits in both under every name. A message that the packet ends
/// has the same bytes in both.
pub fn assemblies_agree()
    ensures step { (own : ℕ) (a : Assemblies) (p : Packet) (s : SentPacket)
        (taken : List SentPacket) → s.packet ≡ seen (piece p)
        → AreSeen taken (taken_under p a)
        → AgreesWithJoin (drop_cause own a p) p.end (waiting taken s ++ s ∷ []) (takes taken s) }
    ensures waits { (own : ℕ) (a : Assemblies) (p : Packet) (s : SentPacket)
        (port : ModelName → List SentPacket) → s.packet ≡ seen (piece p)
        → WaitsAlike port a
        → WaitsAlike (model_after (drop_cause own a p) (seen_name (name_of p.envelope)) s port)
        (after own a p) }
    ensures whole { (own : ℕ) (a : Assemblies) (p : Packet) (s : SentPacket)
        (taken : List SentPacket) → s.packet ≡ seen (piece p)
        → AreSeen taken (taken_under p a) → drop_cause own a p ≡ None → p.end ≡ true
        → model_message_of (waiting taken s ++ s ∷ []) ≡ (message_of (after own a p) p).body }
{}

/// The packets of a message are those of the model's cut, whose unit is the assembler's.
pub fn cuts_agree()
    ensures unit { model_unit_size ≡ unit_size }
    ensures cut { (m : Message) (ps : List Packet) → IsCutOf m ps
        → map (λ (p : Packet). seen (piece p)) ps ≡ packets_of m.body }
{}
