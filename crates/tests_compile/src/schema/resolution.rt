//! Definitions of files, and what names resolve to.
use super::check_rows;

#[test]
fn imports_and_names(rt: HostRuntime) {
    check_rows(
        &rt,
        "\
        a: import 'b';message M{C x=1;}\n\
        b: import 'c';\n\
        bad: message C{}message D{}message\n\
        c: message C{}enum E{A=0;}\n\
        d: import 'e';\n\
        e: import public 'c';\n\
        f: import 'bad';import 'c';\n\
        gone\n\
        self: import 'self';message M{}\n\
        ",
        15,
        "\
        a M C => NotVisible c\n\
        a M E => NotVisible c\n\
        a M A => NotFound\n\
        a M x => NotAType\n\
        a M D => NotFound\n\
        a M M => a M message 1\n\
        a - M => a M message 1\n\
        a - x => NotFound\n\
        a - .M.x => NotAType\n\
        d - C => c C message 0\n\
        d anywhere.at.all E => c E enum 1\n\
        f - C => c C message 0\n\
        f - D => NotFound\n\
        self M M => NotFound\n\
        gone - C => NotFound\n\
        ",
    );
}

// The innermost scope in which the first part is a message, an enum, a service or a package
// decides.
#[test]
fn packages(rt: HostRuntime) {
    check_rows(
        &rt,
        "\
        a: package a.foo;import 'b';message M{foo.Bar x=1;}\n\
        b: package foo;message Bar{}\n\
        c: package p;import 'd';\n\
        d: import 'e';import 'f';\n\
        e: package p.foo.x;\n\
        f: package foo;import 'b';message Baz{}message foo{}\n\
        ",
        15,
        "\
        a a.foo.M foo.Bar => NotFound\n\
        a a.foo.M .foo.Bar => b foo.Bar message 1\n\
        a a.foo.M Bar => NotFound\n\
        a - foo.Bar => b foo.Bar message 1\n\
        a a.foo.M foo.M => a a.foo.M message 2\n\
        a a.foo.M M => a a.foo.M message 2\n\
        a a.foo.M a.foo.M => a a.foo.M message 2\n\
        a a.foo.M foo => NotAType\n\
        a a.foo.M a => NotAType\n\
        a a.foo.M .a.foo => NotAType\n\
        a a.foo.M .a.fo => NotFound\n\
        c p foo.Baz => NotFound\n\
        c p .foo.Baz => NotVisible f\n\
        c p Baz => NotFound\n\
        f foo foo.Bar => NotFound\n\
        ",
    );
}

// The first definition counts: files in the order in which they are seen, then the order of the
// text. A definition counts before a package of its name.
#[test]
fn equal_names(rt: HostRuntime) {
    check_rows(
        &rt,
        "\
        a: import 'c';import 'd';\n\
        b: import 'd';import 'c';\n\
        c: message M{int32 x=1;message y{}enum y{z=0;}}message N{message x{}int32 x=1;}\n\
        d: package M.x;message T{}\n\
        e: import 'f';import 'c';\n\
        f: message M{message x{}message X{}}service x{}enum O{N=0;}\n\
        ",
        15,
        "\
        a - M.x => NotAType\n\
        a M x => NotAType\n\
        a M x.T => d M.x.T message 1\n\
        b - M.x.T => d M.x.T message 1\n\
        b - M => c M message 0\n\
        b - M.y => c M.y message 2\n\
        b - N.x => c N.x message 6\n\
        e - M => f M message 0\n\
        e M x => f M.x message 1\n\
        e - M.X => f M.X message 2\n\
        e - M.y => c M.y message 2\n\
        e - N => NotAType\n\
        e - N.x => NotFound\n\
        e - .N.x => c N.x message 6\n\
        e - x => NotAType\n\
        ",
    );
}

// An inner scope decides for a dotted name; for a single name only where it has a type.
#[test]
fn scopes(rt: HostRuntime) {
    check_rows(
        &rt,
        "\
        a: message A{message C{}}message M{message A{message B{}}int32 M=1;enum E{V=0;}oneof o{A f=2;}}\n\
        b: import 'a';package M.p;service S{rpc C(A)returns(S);}message C{}\n\
        ",
        16,
        "\
        a M A => a M.A message 3\n\
        a M.A A => a M.A message 3\n\
        a M.A A.B => a M.A.B message 4\n\
        a M A.C => NotFound\n\
        a - A.C => a A.C message 1\n\
        a M .A.C => a A.C message 1\n\
        a M M => a M message 2\n\
        a M M.A.B => a M.A.B message 4\n\
        a M V => NotAType\n\
        a M E.V => NotFound\n\
        a M E => a M.E enum 6\n\
        a M o.f => NotFound\n\
        a M f => NotAType\n\
        b M.p.S C => b M.p.C message 4\n\
        b M.p.S S.C => NotAType\n\
        b M.p.S A => a M.A message 3\n\
        ",
    );
}

// An entry is not a type, and does not decide for a dotted name.
#[test]
fn map_entries(rt: HostRuntime) {
    check_rows(
        &rt,
        "\
        a: message M{map<string,N>foo_bar=1;message N{}}\n\
        b: import 'a';message FooBarEntry{message N{}}message O{FooBarEntry x=1;map<int32,M.N>foo_bar=2;}\n\
        ",
        10,
        "\
        a M FooBarEntry => NotAType\n\
        a M FooBarEntry.N => NotFound\n\
        a - M.FooBarEntry => NotAType\n\
        b M FooBarEntry => b FooBarEntry message 1\n\
        b M FooBarEntry.N => b FooBarEntry.N message 2\n\
        b O FooBarEntry.N => b FooBarEntry.N message 2\n\
        a - .M.FooBarEntry.key => NotFound\n\
        Defs a =>  | M message 0; M.foo_bar field 1; M.FooBarEntry entry 1; M.N message 2;\n\
        Resolved a => 1 type a M.N message 2;\n\
        Resolved b => 4 type b FooBarEntry message 1;5 type a M.N message 2;\n\
        ",
    );
}

// An enum value is defined in the scope that holds its enum. The first package counts.
#[test]
fn definitions(rt: HostRuntime) {
    check_rows(
        &rt,
        "\
        a: package p;package q;enum E{A=0;}message M{oneof o{int32 x=1;}enum F{B=0;}map<int32,int32>_1a=2;map<int32,int32>a_1b=3;}service S{option x=y;rpc R(.p.M)returns(stream M);}\n\
        b: import 'a';message FOO__bar{map<int32,int32>FOO__bar=1;map<int32,int32>_=2;message x{extend M{}}}\n\
        c: message C{}message\n\
        ",
        4,
        "\
        Defs a => p | p.E enum 2; p.A value 3; p.M message 4; p.M.o oneof 5; p.M.x field 6; p.M.F enum 7; p.M.B value 8; p.M._1a field 9; p.M.1AEntry entry 9; p.M.a_1b field 10; p.M.A1bEntry entry 10; p.S service 11; p.S.R method 13;\n\
        Defs b =>  | FOO__bar message 1; FOO__bar.FOO__bar field 2; FOO__bar.FOOBarEntry entry 2; FOO__bar._ field 3; FOO__bar.Entry entry 3; FOO__bar.x message 4;\n\
        Defs c =>  |\n\
        Resolved b => \n\
        ",
    );
}

#[test]
fn keywords(rt: HostRuntime) {
    check_rows(
        &rt,
        "\
        a: message message{optional message message=1;.message oneof=2;map<int32,message>map=3;}message map{map.stream x=1;optional enum y=2;message stream{}}enum enum{rpc=0;}service service{rpc rpc(message)returns(.map.stream);}\n\
        ",
        1,
        "\
        Resolved a => 1 type a message message 0;2 type a message message 0;3 type a message message 0;5 type a map.stream message 7;6 type a enum enum 8;11 input a message message 0;11 output a map.stream message 7;\n\
        ",
    );
}

// The name of a scalar type alone is that type in a field, and looked up in a method.
#[test]
fn scalars(rt: HostRuntime) {
    check_rows(
        &rt,
        "\
        a: message int32{}message M{int32 x=1;.int32 y=2;optional int32.z w=3;}service S{rpc A(int32)returns(string);rpc int32(S)returns(A);}\n\
        b: import 'c';message M{oneof o{N x=1;x y=2;}message N{}map<bool,bytes>z=3;map<bool,.bytes>v=4;C c=5;}\n\
        c: import 'd';package p;\n\
        d: message C{}\n\
        ",
        2,
        "\
        Resolved a => 3 type a int32 message 0;4 type NotFound;6 input a int32 message 0;6 output NotFound;7 input NotAType;7 output NotAType;\n\
        Resolved b => 3 type b M.N message 5;4 type NotAType;7 type NotFound;8 type NotVisible d;\n\
        ",
    );
}
