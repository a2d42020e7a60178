//! Laws of tokens: each is a function without a body, whose clause is the law.
ghost use Rattle.std.specs.Prelude.{◌≡◌};
ghost use Rattle.pol_tokens.specs.Laws.{TextsTellTokens};
ghost use Rattle.pol_tokens.specs.declared.session.TheConstants.{SESSION_LIFE};
ghost use Rattle.pol_tokens.specs.declared.text.TheConstants.{TOKEN_LENGTH};
ghost use Rattle.pol_tokens.specs.declared.token.TheConstants.{TOKEN_LIFE};

/// Tokens with one text have one serial and the same two words.
pub fn texts_tell_tokens()
    ensures { TextsTellTokens }
{}

/// A session lasts an hour and a storage token a quarter of one, in milliseconds, and the text of each has 48 bytes.
pub fn bounds_are_those()
    ensures life { SESSION_LIFE ≡ 3600000 }
    ensures token { TOKEN_LIFE ≡ 900000 }
    ensures length { TOKEN_LENGTH ≡ 48 }
{}
