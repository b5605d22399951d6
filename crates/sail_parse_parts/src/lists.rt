ghost use Rattle.std.specs.Prelude.{◌≡◌, [], ◌∷◌, ◌++◌, ◌<◌, ◌≤◌, length, IfOk, IfErr};
ghost use Rattle.sail_grammar.specs.RowName.{EnumMembers, EnumBars, Names, NamesTail, Members, MembersTail};
ghost use Rattle.sail_grammar.specs.RowName as N;
ghost use Rattle.sail_grammar.specs.Form.{Row, ◌or◌, ◌then◌};
ghost use Rattle.sail_grammar.specs.Table.{identifier};
ghost use Rattle.sail_grammar.specs.Parsing.{Reading, StopsAt};
ghost use Rattle.sail_grammar.specs.DefTrees.{names_of, enum_members_of, member_of, members_of};
ghost use Rattle.sail_parse_parts.specs.Behind.{names_behind, bars_behind, members_behind};

use sail_base::Items;
use sail_grammar::{
    Lexeme, Mode, Read, accept, expect, expect_identifier, name, sees, sees_identifier,
};
use sail_lex::TokenKind;
use sail_parse_tp::typ;
use sail_syntax::{Member, Name};
use std::alloc::Global;

/// Names with commas between, and perhaps a last comma.
pub fn names<'a>(alloc: Global, tokens: &'a [Lexeme]) -> Read<'a, Items<Name>>
    ensures read { IfOk result (λ r. Reading (Row Names) names_of tokens.now r.0 r.1.now) }
    ensures shorter { IfOk result (λ r. length r.1.now < length tokens.now) }
    ensures stop { IfErr result (λ e. StopsAt (Row Names) tokens.now e) }
{
    let (token, after_name) = expect_identifier(tokens)?;
    let mut list = Items::new(alloc);
    list.push(name(token)?)?;
    names_tail(list, after_name)
}

// Names behind others, each behind a comma, and perhaps a last comma.
fn names_tail<'a>(mut list: Items<Name>, tokens: &'a [Lexeme]) -> Read<'a, Items<Name>>
    ensures read { IfOk result (λ r. Reading (Row NamesTail) (names_behind list) tokens.now r.0 r.1.now) }
    ensures shorter { IfOk result (λ r. length r.1.now ≤ length tokens.now) }
    ensures stop { IfErr result (λ e. StopsAt (Row NamesTail) tokens.now e) }
{
    let mut rest = tokens;
    'names: while sees(rest, TokenKind::Comma) {
        let (_, after_comma) = expect(rest, TokenKind::Comma)?;
        if sees_identifier(after_comma) {
            let (token, after_name) = expect_identifier(after_comma)?;
            list.push(name(token)?)?;
            rest = after_name;
        } else {
            return Ok((list, after_comma));
        }
    }
    Ok((list, rest))
}

/// The members of an enum, in braces or between `|`.
pub fn enum_members<'a>(alloc: Global, tokens: &'a [Lexeme]) -> Read<'a, Items<Name>>
    ensures read { IfOk result (λ r. Reading (Row EnumMembers or identifier then Row EnumBars) enum_members_of tokens.now r.0 r.1.now) }
    ensures shorter { IfOk result (λ r. length r.1.now < length tokens.now) }
    ensures stop { IfErr result (λ e. StopsAt (Row EnumMembers or identifier then Row EnumBars) tokens.now e) }
{
    match accept(tokens, TokenKind::OpenBrace) {
        Some((_, after_bracket)) => {
            let (list, after_list) = names(alloc, after_bracket)?;
            let (_, rest) = expect(after_list, TokenKind::CloseBrace)?;
            Ok((list, rest))
        }
        None => {
            let (token, after_name) = expect_identifier(tokens)?;
            let mut list = Items::new(alloc);
            list.push(name(token)?)?;
            let (list, rest) = enum_bars(list, after_name)?;
            Ok((list, rest))
        }
    }
}

// Names behind others, each behind a `|`.
fn enum_bars<'a>(mut list: Items<Name>, tokens: &'a [Lexeme]) -> Read<'a, Items<Name>>
    ensures read { IfOk result (λ r. Reading (Row EnumBars) (bars_behind list) tokens.now r.0 r.1.now) }
    ensures shorter { IfOk result (λ r. length r.1.now ≤ length tokens.now) }
    ensures stop { IfErr result (λ e. StopsAt (Row EnumBars) tokens.now e) }
{
    let mut rest = tokens;
    'bars: while sees(rest, TokenKind::Bar) {
        let (_, after_bar) = expect(rest, TokenKind::Bar)?;
        let (token, after_name) = expect_identifier(after_bar)?;
        list.push(name(token)?)?;
        rest = after_name;
    }
    Ok((list, rest))
}

// A name and its type.
pub(crate) fn member<'a>(alloc: Global, tokens: &'a [Lexeme]) -> Read<'a, Member>
    ensures read { IfOk result (λ r. Reading (Row N.Member) member_of tokens.now r.0 r.1.now) }
    ensures shorter { IfOk result (λ r. length r.1.now < length tokens.now) }
    ensures stop { IfErr result (λ e. StopsAt (Row N.Member) tokens.now e) }
{
    let (token, after_name) = expect_identifier(tokens)?;
    let name = name(token)?;
    let (_, after_colon) = expect(after_name, TokenKind::Colon)?;
    let (typ, rest) = typ(alloc, after_colon, Mode::Full)?;
    Ok((Member { name, typ }, rest))
}

/// Members with commas between, and perhaps a last comma.
pub fn members<'a>(alloc: Global, tokens: &'a [Lexeme]) -> Read<'a, Items<Member>>
    ensures read { IfOk result (λ r. Reading (Row Members) members_of tokens.now r.0 r.1.now) }
    ensures shorter { IfOk result (λ r. length r.1.now < length tokens.now) }
    ensures stop { IfErr result (λ e. StopsAt (Row Members) tokens.now e) }
{
    let (first, after_first) = member(alloc, tokens)?;
    let mut list = Items::new(alloc);
    list.push(first)?;
    members_tail(list, alloc, after_first)
}

// Members behind others, each behind a comma, and perhaps a last comma.
fn members_tail<'a>(
    mut list: Items<Member>,
    alloc: Global,
    tokens: &'a [Lexeme],
) -> Read<'a, Items<Member>>
    ensures read { IfOk result (λ r. Reading (Row MembersTail) (members_behind list) tokens.now r.0 r.1.now) }
    ensures shorter { IfOk result (λ r. length r.1.now ≤ length tokens.now) }
    ensures stop { IfErr result (λ e. StopsAt (Row MembersTail) tokens.now e) }
{
    let mut rest = tokens;
    'members: while sees(rest, TokenKind::Comma) {
        let (_, after_comma) = expect(rest, TokenKind::Comma)?;
        if sees_identifier(after_comma) {
            let (next, after_next) = member(alloc, after_comma)?;
            list.push(next)?;
            rest = after_next;
        } else {
            return Ok((list, after_comma));
        }
    }
    Ok((list, rest))
}
