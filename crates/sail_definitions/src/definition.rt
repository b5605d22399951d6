ghost use Rattle.std.specs.Prelude.{◌≡◌, [], ◌∷◌, ◌++◌, ◌<◌, ◌≤◌, length, IfOk, IfErr};
ghost use Rattle.sail_grammar.specs.RowName.{Definition, Definitions, OrderDefinition, TypeDefinition, EnumDefinition};
ghost use Rattle.sail_grammar.specs.RowName.{StructDefinition, OverloadDefinition};
ghost use Rattle.sail_grammar.specs.Form.{Row};
ghost use Rattle.sail_grammar.specs.Parsing.{Reading, StopsAt};
ghost use Rattle.sail_grammar.specs.DefTrees.{order_of, alias_of, enum_of, struct_definition_of, overload_of, def_of, defs_of};

use crate::clauses::mapping;
use crate::functions::{function, let_definition, measure, register, val};
use sail_base::Items;
use sail_grammar::{Lexeme, Mode, Read, ReadError, expect, expect_identifier, name, sees};
use sail_lex::TokenKind;
use sail_parse_parts::{
    end, enum_members, kind_mark, members, names, overloaded, parameters, scattered,
    union_definition,
};
use sail_parse_tp::typ;
use sail_syntax::Def;
use std::alloc::Global;

// The order of bits.
fn order<'a>(tokens: &'a [Lexeme]) -> Read<'a, Def>
    ensures read { IfOk result (λ r. Reading (Row OrderDefinition) order_of tokens.now r.0 r.1.now) }
    ensures shorter { IfOk result (λ r. length r.1.now < length tokens.now) }
    ensures stop { IfErr result (λ e. StopsAt (Row OrderDefinition) tokens.now e) }
{
    let (word, after_word) = expect(tokens, TokenKind::Default)?;
    let (_, after_order) = expect(after_word, TokenKind::Order)?;
    let (_, rest) = expect(after_order, TokenKind::Dec)?;
    Ok((Def::Order(word.place), rest))
}

// A name for a type.
fn alias<'a>(alloc: Global, tokens: &'a [Lexeme]) -> Read<'a, Def>
    ensures read { IfOk result (λ r. Reading (Row TypeDefinition) alias_of tokens.now r.0 r.1.now) }
    ensures shorter { IfOk result (λ r. length r.1.now < length tokens.now) }
    ensures stop { IfErr result (λ e. StopsAt (Row TypeDefinition) tokens.now e) }
{
    let (word, after_word) = expect(tokens, TokenKind::TypeWord)?;
    let (token, after_name) = expect_identifier(after_word)?;
    let name = name(token)?;
    let (variables, after_parameters) = parameters(alloc, after_name)?;
    let (kind, after_kind) = kind_mark(after_parameters)?;
    let (_, after_sign) = expect(after_kind, TokenKind::Equal)?;
    let (typ, rest) = typ(alloc, after_sign, Mode::Full)?;
    let place = word.place;
    Ok((
        Def::Alias {
            place,
            name,
            variables,
            kind,
            typ,
        },
        rest,
    ))
}

// An enum.
fn enum_definition<'a>(alloc: Global, tokens: &'a [Lexeme]) -> Read<'a, Def>
    ensures read { IfOk result (λ r. Reading (Row EnumDefinition) enum_of tokens.now r.0 r.1.now) }
    ensures shorter { IfOk result (λ r. length r.1.now < length tokens.now) }
    ensures stop { IfErr result (λ e. StopsAt (Row EnumDefinition) tokens.now e) }
{
    let (word, after_word) = expect(tokens, TokenKind::Enum)?;
    let (token, after_name) = expect_identifier(after_word)?;
    let name = name(token)?;
    let (_, after_sign) = expect(after_name, TokenKind::Equal)?;
    let (members, rest) = enum_members(alloc, after_sign)?;
    Ok((Def::Enum(word.place, name, members), rest))
}

// A struct.
fn struct_definition<'a>(alloc: Global, tokens: &'a [Lexeme]) -> Read<'a, Def>
    ensures read { IfOk result (λ r. Reading (Row StructDefinition) struct_definition_of tokens.now r.0 r.1.now) }
    ensures shorter { IfOk result (λ r. length r.1.now < length tokens.now) }
    ensures stop { IfErr result (λ e. StopsAt (Row StructDefinition) tokens.now e) }
{
    let (word, after_word) = expect(tokens, TokenKind::Struct)?;
    let (token, after_name) = expect_identifier(after_word)?;
    let name = name(token)?;
    let (variables, after_parameters) = parameters(alloc, after_name)?;
    let (_, after_sign) = expect(after_parameters, TokenKind::Equal)?;
    let (_, after_bracket) = expect(after_sign, TokenKind::OpenBrace)?;
    let (fields, after_members) = members(alloc, after_bracket)?;
    let (_, rest) = expect(after_members, TokenKind::CloseBrace)?;
    let place = word.place;
    Ok((
        Def::Struct {
            place,
            name,
            variables,
            fields,
        },
        rest,
    ))
}

// An overloading of a name or an operator.
fn overload<'a>(alloc: Global, tokens: &'a [Lexeme]) -> Read<'a, Def>
    ensures read { IfOk result (λ r. Reading (Row OverloadDefinition) overload_of tokens.now r.0 r.1.now) }
    ensures shorter { IfOk result (λ r. length r.1.now < length tokens.now) }
    ensures stop { IfErr result (λ e. StopsAt (Row OverloadDefinition) tokens.now e) }
{
    let (word, after_word) = expect(tokens, TokenKind::Overload)?;
    let (what, after_what) = overloaded(after_word)?;
    let (_, after_sign) = expect(after_what, TokenKind::Equal)?;
    let (_, after_bracket) = expect(after_sign, TokenKind::OpenBrace)?;
    let (members, after_names) = names(alloc, after_bracket)?;
    let (_, rest) = expect(after_names, TokenKind::CloseBrace)?;
    Ok((Def::Overload(word.place, what, members), rest))
}

// A definition.
fn definition<'a>(alloc: Global, tokens: &'a [Lexeme]) -> Read<'a, Def>
    ensures read { IfOk result (λ r. Reading (Row Definition) def_of tokens.now r.0 r.1.now) }
    ensures shorter { IfOk result (λ r. length r.1.now < length tokens.now) }
    ensures stop { IfErr result (λ e. StopsAt (Row Definition) tokens.now e) }
{
    if sees(tokens, TokenKind::Default) {
        order(tokens)
    } else if sees(tokens, TokenKind::TypeWord) {
        alias(alloc, tokens)
    } else if sees(tokens, TokenKind::Enum) {
        enum_definition(alloc, tokens)
    } else if sees(tokens, TokenKind::Struct) {
        struct_definition(alloc, tokens)
    } else if sees(tokens, TokenKind::Union) {
        union_definition(alloc, tokens)
    } else if sees(tokens, TokenKind::Val) {
        val(alloc, tokens)
    } else if sees(tokens, TokenKind::Function) {
        function(alloc, tokens)
    } else if sees(tokens, TokenKind::TerminationMeasure) {
        measure(alloc, tokens)
    } else if sees(tokens, TokenKind::Mapping) {
        mapping(alloc, tokens)
    } else if sees(tokens, TokenKind::Let) {
        let_definition(alloc, tokens)
    } else if sees(tokens, TokenKind::Register) {
        register(alloc, tokens)
    } else if sees(tokens, TokenKind::Overload) {
        overload(alloc, tokens)
    } else if sees(tokens, TokenKind::Scattered) {
        scattered(alloc, tokens)
    } else {
        end(tokens)
    }
}

/// The definitions that tokens are, up to the last one.
///
/// An error says how many tokens are left where no definition goes on, and of a form that is forbidden
/// there also how many are left from its first token on; or that memory is wanting.
pub fn definitions(alloc: Global, tokens: &[Lexeme]) -> Result<Items<Def>, ReadError>
    ensures read { IfOk result (λ list. Reading (Row Definitions) defs_of tokens.now list []) }
    ensures stop { IfErr result (λ e. StopsAt (Row Definitions) tokens.now e) }
{
    let mut list = Items::new(alloc);
    let mut rest = tokens;
    'definitions: while !rest.is_empty() {
        let (next, after_next) = definition(alloc, rest)?;
        list.push(next)?;
        rest = after_next;
    }
    Ok(list)
}
