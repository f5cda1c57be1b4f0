// Lines of words, cut off the front of the tokens.
ghost use Rattle.std.specs.Prelude.{◌≡◌, ℕ, ◌<◌, List, ◌∷◌, map, length, MatchOption, ◌≢◌};
ghost use Rattle.text.specs.Tokens.{Sign, Sign.word, Sign.line_end, sign_of, line_of};

use text::token::Token;

// The words of a line, the line's number, and the tokens behind it.
#[derive(Clone, Copy)]
pub struct WordLine<'t, 'a, W> {
    pub words: W,
    pub line: u32,
    pub rest: &'t [Token<'a>],
}

// The number of the line that the tokens begin with.
pub fn first_line(tokens: &[Token<'_>]) -> u32
    requires { 0 < length tokens.now }
    ensures { (s : Sign) × (ss : List Sign) × (map sign_of tokens.now ≡ s ∷ ss) × (result ≡ line_of s) }
{
    tokens[0].line()
}

// The line of two words that the tokens begin with.
pub fn cut_two<'t, 'a>(tokens: &'t [Token<'a>]) -> Option<WordLine<'t, 'a, (&'a [u8], &'a [u8])>>
    ensures { MatchOption result ((u v : List ℕ) (n i k : ℕ) (ss : List Sign) → map sign_of tokens.now ≢ word u n ∷ word v i ∷ line_end k ∷ ss) (λ t. (i : ℕ) × (k : ℕ) × (map sign_of tokens.now ≡ word t.words.0.now t.line ∷ word t.words.1.now i ∷ line_end k ∷ map sign_of t.rest.now)) }
{
    match tokens {
        [
            Token::Word(first, line),
            Token::Word(second, _),
            Token::LineEnd(_),
            rest @ ..,
        ] => {
            Some(WordLine {
                words: (first, second),
                line: *line,
                rest,
            })
        }
        _ => None,
    }
}

// The line of three words that the tokens begin with.
// Beside `cut_two`, not one function of the number of words: a slice pattern each is plainer than a loop over tokens.
pub fn cut_three<'t, 'a>(
    tokens: &'t [Token<'a>],
) -> Option<WordLine<'t, 'a, (&'a [u8], &'a [u8], &'a [u8])>>
    ensures { MatchOption result ((u v w : List ℕ) (n i j k : ℕ) (ss : List Sign) → map sign_of tokens.now ≢ word u n ∷ word v i ∷ word w j ∷ line_end k ∷ ss) (λ t. (i : ℕ) × (j : ℕ) × (k : ℕ) × (map sign_of tokens.now ≡ word t.words.0.now t.line ∷ word t.words.1.now i ∷ word t.words.2.now j ∷ line_end k ∷ map sign_of t.rest.now)) }
{
    match tokens {
        [
            Token::Word(first, line),
            Token::Word(second, _),
            Token::Word(third, _),
            Token::LineEnd(_),
            rest @ ..,
        ] => Some(WordLine {
            words: (first, second, third),
            line: *line,
            rest,
        }),
        _ => None,
    }
}
