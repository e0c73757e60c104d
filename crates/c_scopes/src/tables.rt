//! The structs of a unit by their tags, and their members by name.

ghost use Rattle.std.specs.Prelude.{◌≡◌, ◌<◌, length, map, take, get_or, IfOk};
ghost use Rattle.std.specs.List.{list_any};
ghost use Rattle.std.specs.Option.{option_copied};
ghost use Rattle.iv_words.specs.Words.{same_word};
ghost use Rattle.name_tables.specs.FirstPlaces.{first_from};
ghost use Rattle.c_ast.specs.declared.unit.CStruct.{CStruct};
ghost use Rattle.c_ast.specs.Places.{place_from};
ghost use Rattle.c_scopes.specs.Tables.{first_member, members_view};

use c_ast::{CMember, CStruct};
use iv_words::{Memory, Seq, Word};
use name_tables::NameRow;
use std::alloc::Global;
use std::marker::Model;

/// The members of a struct, of two of a name the first.
#[derive(Drop)]
pub struct MemberTable<'u> {
    members: &'u [CMember],
    names: NameRow<'u>,
}

impl<'u> Model for MemberTable<'u> {
    ghost use Rattle.std.specs.Prelude.{◌≡◌, List, map};
    ghost use Rattle.c_ast.specs.declared.unit.CMember.{CMember};

    ghost Value = { List CMember };

    ghost view = { λ t. t.members.now };

    ghost invariant = { λ t. t.names ≡ map (λ m. m.name) t.members.now };
}

/// The structs of a unit, of two of a tag the first.
#[derive(Drop)]
pub struct StructTable<'u> {
    structs: &'u [CStruct],
    tags: NameRow<'u>,
    members: Seq<MemberTable<'u>>,
}

impl<'u> Model for StructTable<'u> {
    ghost use Rattle.std.specs.Prelude.{◌≡◌, List, map};
    ghost use Rattle.c_ast.specs.declared.unit.CStruct.{CStruct};
    ghost use Rattle.c_scopes.specs.Tables.{Tabled};

    ghost Value = { List CStruct };

    ghost view = { λ t. t.structs.now };

    ghost invariant = { λ t. Tabled t.structs.now t.tags t.members };
}

/// The names of members in their order.
fn member_names<'u>(alloc: Global, members: &'u [CMember]) -> Result<NameRow<'u>, Memory>
    ensures { IfOk result (λ names. names ≡ map (λ m. m.name) members.now) }
{
    let mut names = NameRow::new(alloc);
    for member in members {
        names.push(&member.name)?;
    }
    Ok(names)
}

fn member_at<'u>(members: &'u [CMember], i: usize) -> &'u CMember
    requires { i < length members.now }
    ensures { result.now ≡ get_or members.now i result.now }
{
    &members[i]
}

/// The tags of structs in their order.
fn tags<'u>(alloc: Global, structs: &'u [CStruct]) -> Result<NameRow<'u>, Memory>
    ensures { IfOk result (λ names. names ≡ map (λ s. s.name) structs.now) }
{
    let mut names = NameRow::new(alloc);
    for declared in structs {
        names.push(&declared.name)?;
    }
    Ok(names)
}

fn tag_at<'u>(structs: &'u [CStruct], k: usize) -> &'u Word
    requires { k < length structs.now }
    ensures { (d : CStruct) → result.now ≡ (get_or structs.now k d).name }
{
    &structs[k].name
}

impl<'u> MemberTable<'u> {
    pub fn new(alloc: Global, members: &'u [CMember]) -> Result<MemberTable<'u>, Memory>
        ensures { IfOk result (λ table. table ≡ members.now) }
    {
        let names = member_names(alloc, members)?;
        Ok(MemberTable { members, names })
    }

    pub fn members(&self) -> &'u [CMember]
        ensures { result.now ≡ self.now }
    {
        self.members
    }

    pub fn len(&self) -> usize
        ensures { result ≡ length self.now }
    {
        self.members.len()
    }

    pub fn at(&self, i: usize) -> &'u CMember
        requires { i < length self.now }
        ensures { result.now ≡ get_or self.now i result.now }
    {
        member_at(self.members, i)
    }

    /// The place of the first member of a name.
    fn place(&self, name: &Word) -> Option<usize>
        ensures { result ≡ first_from 0 (map (λ m. m.name) self.now) name.now }
    {
        self.names.find(name)
    }

    /// The first member of a name.
    pub fn find(&self, name: &Word) -> Option<&'u CMember>
        ensures { option_copied result ≡ first_member self.now name.now }
    {
        match self.place(name) {
            None => None,
            Some(k) => self.members.get(k),
        }
    }

    /// Whether one of the first members has a name.
    pub fn has_before(&self, count: usize, name: &Word) -> bool
        ensures { result ≡ list_any (λ m. same_word m.name name.now) (take count self.now) }
    {
        match self.place(name) {
            None => false,
            Some(k) => k < count,
        }
    }
}

/// The members of each struct in a table.
fn member_tables<'u>(alloc: Global, structs: &'u [CStruct]) -> Result<Seq<MemberTable<'u>>, Memory>
    ensures { IfOk result (λ tables. tables ≡ map (λ s. s.members) structs.now) }
{
    let mut tables = Seq::new(alloc);
    for declared in structs {
        tables.push(MemberTable::new(alloc, declared.members.as_slice())?)?;
    }
    Ok(tables)
}

impl<'u> StructTable<'u> {
    pub fn new(alloc: Global, structs: &'u [CStruct]) -> Result<StructTable<'u>, Memory>
        ensures { IfOk result (λ table. table ≡ structs.now) }
    {
        let tags = tags(alloc, structs)?;
        let members = member_tables(alloc, structs)?;
        Ok(StructTable {
            structs,
            tags,
            members,
        })
    }

    pub fn len(&self) -> usize
        ensures { result ≡ length self.now }
    {
        self.structs.len()
    }

    /// The place of the first struct of a tag.
    pub fn find(&self, tag: &Word) -> Option<usize>
        ensures { result ≡ place_from 0 self.now tag.now }
    {
        self.tags.find(tag)
    }

    /// The tag of a struct.
    pub fn tag(&self, k: usize) -> &'u Word
        requires { k < length self.now }
        ensures { (d : CStruct) → result.now ≡ (get_or self.now k d).name }
    {
        tag_at(self.structs, k)
    }

    /// The members of a struct.
    pub fn members(&self, k: usize) -> &MemberTable<'u>
        requires { k < length self.now }
        ensures { (d : CStruct) → result.now ≡ (get_or self.now k d).members }
    {
        &self.members[k]
    }
}

/// The members themselves, of which a struct that is not there has none.
pub fn members_of<'u>(table: Option<&'u MemberTable<'u>>) -> &'u [CMember]
    ensures { result.now ≡ members_view table.entry }
{
    match table {
        None => &[],
        Some(table) => table.members(),
    }
}
