//! Structs and their members.

ghost use Rattle.std.specs.Prelude.{◌≡◌, ◌++◌, [], codes, map, max, nat_le, take};
ghost use Rattle.c_ast.specs.Structs.{row_of, table};
ghost use Rattle.c_text.specs.Rules.{behind};
ghost use Rattle.c_text.specs.Spelling.{length_text, member_text, struct_text};
ghost use Rattle.c_text.specs.TypeText.{object_text, texts};
ghost use Rattle.c_text.specs.UnitRules as units;
ghost use Rattle.c_text.specs.UnitRules.{members_demands, struct_demands};
ghost use Rattle.c_rules.specs.Members.{member_asks, struct_named};
ghost use Rattle.c_scopes.specs.Scope.{names_view};
ghost use Rattle.c_scopes.specs.StructViews.{structs_view};
ghost use Rattle.c_rules.specs.Sizes.{row_size, sized_view, sizes_of};
ghost use Rattle.c_scopes.specs.Walks.{Walks};

use crate::sizes::{Size, end_of, member_size, rounded};
use c_ast::CMember;
use c_expression_rules::check_base;
use c_scopes::{MemberTable, Names, Walk};
use c_text::CWhy;
use itoa::Buffer;
use iv_words::Word;

fn is_allowed_length(length: Option<u32>) -> bool
    ensures { result ≡ units.is_allowed_length length }
{
    match length {
        None => true,
        Some(n) => 1 <= n && n <= 65535,
    }
}

fn pass_length(length: Option<u32>, walk: &mut Walk)
    ensures { Walks walk.old walk.new (length_text length) [] }
{
    match length {
        None => {}
        Some(n) => {
            let mut digits = Buffer::new();
            walk.pass(b"[");
            walk.pass(digits.format(n).as_bytes());
            walk.pass(b"]");
        }
    }
}

/// The type and the name of a member, behind others, that ends in time or not.
fn check_declared(
    names: &Names,
    members: &MemberTable,
    earlier: usize,
    member: &CMember,
    ends: bool,
    walk: &mut Walk,
)
    ensures { Walks walk.old walk.new (object_text member.now.base member.now.name) (member_asks (names_view names.now) (take earlier members.now) ends walk.old.at member.now) }
{
    let at = walk.at;
    check_base(names, &member.base, walk);
    walk.ask(at, CWhy::BadType, ends);
    walk.ask(at, CWhy::BadType, is_allowed_length(member.length));
    walk.pass(b" ");
    let had = members.has_before(earlier, &member.name);
    walk.ask(walk.at, CWhy::BadName, !had);
    walk.pass(member.name.as_slice());
}

fn check_member(
    names: &Names,
    members: &MemberTable,
    earlier: usize,
    member: &CMember,
    ends: bool,
    walk: &mut Walk,
)
    ensures { Walks walk.old walk.new (member_text member.now) (member_asks (names_view names.now) (take earlier members.now) ends (behind walk.old.at (codes "  ")) member.now) }
{
    walk.pass(b"  ");
    check_declared(names, members, earlier, member, ends, walk);
    pass_length(member.length, walk);
    walk.pass(b";");
    walk.pass(b"\n");
}

/// The members of a struct, and the size of a struct of them.
fn check_members(names: &Names, sized: &[Size], members: &MemberTable, walk: &mut Walk) -> Size
    requires { sized_view (structs_view names.now.structs) sized.now ≡ sizes_of names.now.target (structs_view names.now.structs) }
    ensures walks { Walks walk.old walk.new (texts (map member_text members.now)) (members_demands names.now.target (structs_view names.now.structs) [] walk.old.at members.now) }
    ensures size { result ≡ row_size names.now.target (row_of (table [] (structs_view names.now.structs)) members.now) }
{
    let mut end = 0;
    let mut align = 1;
    for i in 0..members.len() {
        let member = members.at(i);
        let size = member_size(names.target, &names.structs, sized, member);
        end = end_of(end, &size);
        align = larger(align, size.align);
        check_member(names, members, i, member, is_in_time(end), walk);
    }
    Size {
        bytes: rounded(end, align),
        align,
    }
}

fn larger(first: u64, second: u64) -> u64
    ensures { result ≡ max first second }
{
    first.max(second)
}

/// Whether a member ends early enough in its struct.
fn is_in_time(end: u64) -> bool
    ensures { result ≡ nat_le end 4294967295 }
{
    end <= 4_294_967_295
}

/// A struct behind those that are in scope, and its size.
pub fn check_struct(
    names: &Names,
    sized: &[Size],
    tag: &Word,
    members: &MemberTable,
    walk: &mut Walk,
) -> Size
    requires { sized_view (structs_view names.now.structs) sized.now ≡ sizes_of names.now.target (structs_view names.now.structs) }
    ensures walks { Walks walk.old walk.new (struct_text (struct_named tag.now members.now)) (struct_demands names.now.target (structs_view names.now.structs) walk.old.at (struct_named tag.now members.now)) }
    ensures size { result ≡ row_size names.now.target (row_of (table [] (structs_view names.now.structs)) members.now) }
{
    walk.pass(b"struct ");
    let had = names.is_tag(tag);
    walk.ask(walk.at, CWhy::BadName, !had);
    walk.pass(tag.as_slice());
    walk.pass(b" {");
    walk.pass(b"\n");
    let size = check_members(names, sized, members, walk);
    walk.pass(b"};\n");
    size
}
