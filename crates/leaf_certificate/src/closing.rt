ghost use Rattle.std.specs.Prelude.{◌≡◌, ◌≤◌, ◌<◌, true, false, length, IfNone, IfSome};
ghost use Rattle.pip_model.specs.declared.Kind.TheVariants.{RightParen};
ghost use Rattle.pip_model.specs.Reading as model;
ghost use Rattle.pip_model.specs.Tokens.{token};

use text_tokens::skip_blanks;

// The place behind the `)` that is the next token; none where another is.
#[inline(always)]
pub(crate) fn behind_close(bytes: &[u8], place: usize) -> Option<usize>
    requires { place ≤ length bytes.now }
    ensures closes { IfSome result (λ after. model.same_bracket (token bytes.now place).kind RightParen ≡ true) }
    ensures after { IfSome result (λ after. (token bytes.now place).after ≡ after) }
    ensures none { IfNone result (model.same_bracket (token bytes.now place).kind RightParen ≡ false) }
    ensures order { IfSome result (λ after. (place < after) × (after ≤ length bytes.now)) }
{
    let start = skip_blanks(bytes, place);
    let (_, rest) = bytes.split_at(start);
    match rest {
        [b')', ..] => Some(start + 1),
        _ => None,
    }
}
