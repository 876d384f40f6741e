//! Tables of the names of a module.

ghost use Rattle.std.specs.Prelude.{◌≡◌, ◌++◌, IfErr, IfOk, OnOk};
ghost use Rattle.module_nets.specs.declared.fault.NetFault.{NetFault};
ghost use Rattle.module_nets.specs.declared.mention.Class.TheVariants.{Head, Other};
ghost use Rattle.module_nets.specs.Declarations.{counted, named};
ghost use Rattle.module_nets.specs.Mentions.{mentions};
ghost use Rattle.module_nets.specs.Rows.{IsTable};
ghost use Rattle.module_nets.specs.Names.{first_uses, is_implicit, text_of, with_names};

use crate::fault::NetFault;
use crate::gather::gather;
use crate::mention::{Class, Mention, is_of};
use crate::name::text_at;
use crate::sieve::Sieve;
use emu_io::{List, NoMemory};
use id_arena::{ArenaFault, Names};
use std::alloc::Global;
use verilog_lex::Tokens;
use verilog_tree::Module;

/// Adds the names at mentions of one kind to a table.
pub(crate) fn add_class(
    names: &mut Names,
    source: &[u8],
    tokens: &Tokens,
    class: Class,
    mentions: &[Mention],
) -> Result<(), ArenaFault>
    ensures { OnOk result (names.new ≡ with_names names.old (named (text_of source.now tokens.now) class mentions.now)) }
{
    'mentions: for mention in mentions {
        if is_of(class, mention.role) {
            names.intern(text_at(source, tokens, mention.token))?;
        }
    }
    Ok(())
}

/// The table of the names at mentions of one kind.
pub(crate) fn class_table(
    alloc: Global,
    source: &[u8],
    tokens: &Tokens,
    class: Class,
    mentions: &[Mention],
) -> Result<Names, ArenaFault>
    ensures { IfOk result (λ names. names ≡ first_uses (named (text_of source.now tokens.now) class mentions.now)) }
{
    let mut names = Names::new(alloc);
    add_class(&mut names, source, tokens, class, mentions)?;
    Ok(names)
}

/// The table of the names that a module declares: its ports, then its other nets.
pub(crate) fn declared_names(
    alloc: Global,
    source: &[u8],
    tokens: &Tokens,
    module: &Module,
) -> Result<Names, NetFault>
    ensures names { IfOk result (λ names. names ≡ first_uses (named (text_of source.now tokens.now) Head (mentions module.now) ++ named (text_of source.now tokens.now) Other (mentions module.now))) }
    ensures err { IfErr result (λ fault. fault ≡ NetFault.NoMemory) }
{
    let sieve = Sieve {
        source,
        tokens,
        declared: &Names::new(alloc),
        uses: false,
    };
    let statements = gather(alloc, &sieve, module)?;
    let mut names = class_table(alloc, source, tokens, Class::Head, statements.as_slice())?;
    add_class(
        &mut names,
        source,
        tokens,
        Class::Other,
        statements.as_slice(),
    )?;
    Ok(names)
}

/// The mentions of a module that count, where these are the names that it declares.
pub(crate) fn counted(
    alloc: Global,
    source: &[u8],
    tokens: &Tokens,
    declared: &Names,
    module: &Module,
) -> Result<List<Mention>, NoMemory>
    requires { declared.now ≡ first_uses (named (text_of source.now tokens.now) Head (mentions module.now) ++ named (text_of source.now tokens.now) Other (mentions module.now)) }
    ensures { IfOk result (λ found. found ≡ counted (text_of source.now tokens.now) (is_implicit tokens.now) (mentions module.now)) }
{
    let sieve = Sieve {
        source,
        tokens,
        declared,
        uses: true,
    };
    let found = gather(alloc, &sieve, module)?;
    Ok(found)
}

/// All names of a module, those of its nets first, how many nets it has, and its mentions that count.
#[derive(Drop)]
pub(crate) struct Table {
    pub(crate) names: Names,
    pub(crate) count: u32,
    pub(crate) mentions: List<Mention>,
}

/// The table of a module.
pub(crate) fn full_table(
    alloc: Global,
    source: &[u8],
    tokens: &Tokens,
    module: &Module,
) -> Result<Table, NetFault>
    ensures table { IfOk result (λ table. IsTable source.now tokens.now module.now table) }
    ensures err { IfErr result (λ fault. fault ≡ NetFault.NoMemory) }
{
    let mut names = declared_names(alloc, source, tokens, module)?;
    let mentions = counted(alloc, source, tokens, &names, module)?;
    add_class(&mut names, source, tokens, Class::Use, mentions.as_slice())?;
    let count = names.len();
    add_class(&mut names, source, tokens, Class::Own, mentions.as_slice())?;
    Ok(Table {
        names,
        count,
        mentions,
    })
}
