// Several samples on.
ghost use Rattle.std.specs.Prelude.{◌≡◌, ◌+◌, ◌%◌, ◌<◌};
ghost use Rattle.leaps.specs.Sample.{samples_on};

use voice::channel_enum;
use voice::channel_enum::Kind;

fn position_on(position: u8, n: u32) -> u8
    ensures { result ≡ (position + n) % 32 }
{
    ((u32::from(position) % 32 + n % 32) % 32) as u8
}

fn clocked(kind: Kind, n: u32) -> Kind
    ensures { result ≡ samples_on n kind }
{
    let mut k = kind;
    for _ in 0..n {
        k = channel_enum::increment_sample(k);
    }
    k
}

// A wave's position goes round; the noise's register is clocked each time.
pub(crate) fn on(kind: Kind, n: u32) -> Kind
    requires { 0 < n }
    ensures { result ≡ samples_on n kind }
{
    match kind {
        Kind::Wave { bank, position } => Kind::Wave {
            bank,
            position: position_on(position, n),
        },
        Kind::Swept {
            bank,
            position,
            sweep,
        } => Kind::Swept {
            bank,
            position: position_on(position, n),
            sweep,
        },
        Kind::Noise { .. } => clocked(kind, n),
    }
}
