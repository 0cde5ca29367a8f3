//! What holds of the definitions alone.
ghost use Rattle.std.specs.Prelude.{◌≡◌, ◌<◌, ◌≤◌, ◌⊎◌, List, ℕ, All, length, true, false, find, None};
ghost use Rattle.two_wire.specs.Sizes.{most_message_bytes};
ghost use Rattle.mctp_net.specs.declared.packet.Packet.{Packet};
ghost use Rattle.mctp_net.specs.declared.packet.Name.{Name};
ghost use Rattle.mctp_net.specs.declared.message.Message.{Message};
ghost use Rattle.mctp_net.specs.Grammar.{IsPacket, HasFault, has_fault, faults};
ghost use Rattle.mctp_net.specs.Cut.{IsCutOf};
ghost use Rattle.mctp_net.specs.Sizes.{most_assemblies};
ghost use Rattle.mctp_net.specs.Assembly.{Assemblies, nothing, name_of, is_name, is_ours, open_beside, drop_cause, named_where, after, ComesBack};
ghost use Rattle.mctp_net.specs.Sound.{AreSoundAssemblies};

/// Bytes are at most one packet.
pub fn one_packet()
    ensures { (p q : Packet) (bytes : List ℕ) → IsPacket p bytes → IsPacket q bytes → p ≡ q }
{}

/// Bytes have a fault or are a packet, and never both.
pub fn fault_or_packet()
    ensures either { (bytes : List ℕ) → All (λ b. b < 256) bytes
        → HasFault bytes ⊎ ((p : Packet) × IsPacket p bytes) }
    ensures not_both { (p : Packet) (bytes : List ℕ) → IsPacket p bytes
        → find (has_fault bytes) faults ≡ None }
{}

/// A message of 1 to 256 bytes has a cut.
pub fn has_cut()
    ensures { (m : Message) → 0 < length m.body → length m.body ≤ most_message_bytes
        → (ps : List Packet) × IsCutOf m ps }
{}

/// A message is cut in one way.
pub fn one_cut()
    ensures { (m : Message) (ps qs : List Packet) → IsCutOf m ps → IsCutOf m qs → ps ≡ qs }
{}

/// The packets of a cut make their message whole, where they go to this endpoint, and where fewer than eight assemblies of
/// other names are open if they are more than one.
pub fn comes_back()
    ensures { (own : ℕ) (a : Assemblies) (m : Message) (ps : List Packet) → IsCutOf m ps
        → All (λ p. is_ours own p ≡ true) ps
        → (1 < length ps → open_beside (name_of m.envelope) a < most_assemblies)
        → ComesBack own a ps m }
{}

/// Whatever packets come, under each name those that wait are the first of a cut, and at most eight assemblies are open.
pub fn stays_sound()
    ensures none { AreSoundAssemblies nothing }
    ensures next { (own : ℕ) (a : Assemblies) (p : Packet) → AreSoundAssemblies a
        → AreSoundAssemblies (after own a p) }
{}

/// A packet changes what waits under its own name alone: unless it is dropped as NotOurs or NoStart, its assembly is longer
/// by it, or closed.
pub fn each_name_alone()
    ensures same { (own : ℕ) (a : Assemblies) (p : Packet)
        → (after own a p).under (name_of p.envelope) ≡ named_where (drop_cause own a p) p a }
    ensures other { (own : ℕ) (a : Assemblies) (p : Packet) (n : Name)
        → is_name n (name_of p.envelope) ≡ false
        → (after own a p).under n ≡ a.under n }
{}
