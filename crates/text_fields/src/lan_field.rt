//! The fields of `[[lan]]`.
ghost use Rattle.std.specs.Prelude.{◌≡◌};
ghost use Rattle.text_fields.specs.LanWords.{lan_word};

/// A field of `[[lan]]`, or that array, by what names it in a file.
#[derive(Clone, Copy, Debug)]
pub enum LanField {
    Lan,
    Ip,
    Source,
    Mask,
    Gateway,
    Vlan,
}

impl LanField {
    /// The key that it has in a file.
    pub fn word(&self) -> &'static str
        ensures { result.now ≡ lan_word self.now }
    {
        match self {
            LanField::Lan => "lan",
            LanField::Ip => "ip",
            LanField::Source => "source",
            LanField::Mask => "mask",
            LanField::Gateway => "gateway",
            LanField::Vlan => "vlan",
        }
    }
}
