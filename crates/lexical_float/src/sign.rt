// What a text has of a float's sign: document 02, 2.3.
ghost use Rattle.std.specs.Prelude.{◌≡◌, length};
ghost use Rattle.lexical_float.specs.Sign.{minus_sign};

// How many bytes it takes: a set sign bit writes "-".
pub fn minus_length(negative: bool) -> usize
    ensures { result ≡ length (minus_sign negative) }
{
    if negative { 1 } else { 0 }
}
