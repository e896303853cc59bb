// The five waves of 32 samples, one after the other: for an address below 0x280 the place is address / 4.
ghost use Rattle.std.specs.Prelude.{◌≡◌};
ghost use Rattle.voice.specs.Waveform.{sample_at};

#[tactic(auto, unfolding(crate::specs::Waveform::sample_at))]
pub(crate) fn get_indexed(waves: &[u8; 160], bank: u8, position: u8) -> u8
    ensures { result ≡ sample_at waves.now bank position }
{
    if bank > 4 {
        return 0;
    }
    let at = usize::from(bank) * 32 + usize::from(position);
    waves.get(at).copied().unwrap_or(0)
}
