// Single masks and flags: a variable in a mask, the bits of the flags, the key of the two.
ghost use Rattle.std.specs.Prelude.{◌≡◌, ◌+◌, ◌*◌, ◌%◌, ◌^◌, ◌<◌};
ghost use Rattle.model.specs.Finite.{bit, put};

// x is in the mask.
pub fn holds(m: u16, x: u8) -> bool
    requires { x < 16 }
    ensures { result ≡ bit x m }
{
    (m >> x) % 2 == 1
}

// The mask of x alone.
pub fn alone(x: u8) -> u16
    requires { x < 16 }
    ensures { result ≡ 2 ^ x }
{
    1 << x
}

// The mask with x, or without it.
pub fn with_bit(m: u16, x: u8, b: bool) -> u16
    requires { x < 16 }
    ensures { result ≡ put x b m }
{
    if b { m | alone(x) } else { m & !alone(x) }
}

// The key: the shared bit weighs more than any mask.
pub fn key(m: u16, f: u8) -> u32
    ensures { result ≡ 65536 * (f % 2) + m }
{
    65536 * u32::from(f % 2) + u32::from(m)
}
