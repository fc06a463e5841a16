//! Texts with equal trees, and pairs that differ in one detail.
use crate::checks::{check_row_count, check_that, split_row, text_of};
use pq_syntax::{Parsed, parse};
use std::process::Abort;
use test_support::page_of;

/// Whether two outcomes are trees that are equal exactly if `want`.
fn are_trees(one: &Parsed, other: &Parsed, want: bool) -> bool {
    match (one, other) {
        (Parsed::Tree(one), Parsed::Tree(other)) => (one == other) == want,
        _ => false,
    }
}

/// The outcome of parsing `text` after a syntax line.
fn parsed(rt: &(impl Abort + AllocGlobal), text: &str) -> Parsed {
    let whole = page_of(rt.alloc(), "syntax = 'proto3'; ", text, "");
    parse(rt.alloc(), text_of(rt, &whole)).expect(rt, "memory")
}

/// Checks that `one` and `other` have trees that are equal exactly if `want`.
fn check_pair(rt: &(impl Abort + AllocGlobal), one: &str, other: &str, want: bool, row: &str) {
    let first = parsed(rt, one);
    let second = parsed(rt, other);
    check_that(rt, are_trees(&first, &second, want), row);
}

/// Checks the `count` rows `ONE|OTHER` by [`check_pair`], and that each text's tree equals itself.
fn check_pairs(rt: &(impl Abort + AllocGlobal), want: bool, count: usize, rows: &str) {
    check_row_count(rt, count, rows);
    for row in rows.lines() {
        let (one, other) = split_row(rt, row, "|");
        check_pair(rt, one, one, true, row);
        check_pair(rt, other, other, true, row);
        check_pair(rt, one, other, want, row);
    }
}

// Each pair differs in one detail of the tree, and in a span only where the span is that detail.
#[test]
fn other_trees(rt: HostRuntime) {
    check_pairs(
        &rt,
        false,
        44,
        "\
        |package a;\n\
        message M{}|message M{ }\n\
        message M{}| message M{}\n\
        message M{}message N{}|message M{message N{}}\n\
        import 'a';|import 'b';\n\
        import 'a' ;|import  'a';\n\
        import        'a';|import public 'a';\n\
        import weak   'a';|import public 'a';\n\
        package a.b;|package a.c;\n\
        option a=1;|option b=1;\n\
        option a=1;|option a=2;\n\
        option a=-1;|option a=+1;\n\
        option a='1';|option a=\"1\";\n\
        option a={b};|option a={c};\n\
        option a.a=1;|option (a)=1;\n\
        message M{}|message N{}\n\
        message M{A x=1;}|message M{B x=1;}\n\
        message M{A x=1;}|message M{A y=1;}\n\
        message M{A x=1;}|message M{A x=2;}\n\
        message M{A x=1[a=b];}|message M{A x=1[a=c];}\n\
        message M{         A x=1;}|message M{optional A x=1;}\n\
        message M{repeated A x=1;}|message M{optional A x=1;}\n\
        message M{map<int32,A>m=1;}|message M{map<int64,A>m=1;}\n\
        message M{map<int32,A>m=1;}|message M{map<int32,B>m=1;}\n\
        message M{map<int32,A>m=1;}|message M{map<int32,A>n=1;}\n\
        message M{map<int32,A>m=1;}|message M{map<int32,A>m=2;}\n\
        message M{map<int32,A>m=1[a=b];}|message M{map<int32,A>m=1[a=c];}\n\
        message M{oneof o{}}|message M{oneof p{}}\n\
        message M{reserved 1;}|message M{reserved 2;}\n\
        message M{reserved 1 to   2;}|message M{reserved 1 to max;}\n\
        message M{reserved 1 to 2;}|message M{reserved 1 to 3;}\n\
        message M{reserved 'a';}|message M{reserved 'b';}\n\
        enum E{}|enum F{}\n\
        enum E{A=1;}|enum E{B=1;}\n\
        enum E{A=10;}|enum E{A=-1;}\n\
        enum E{A=01;}|enum E{A=-1;}\n\
        enum E{A=1[a=b];}|enum E{A=1[a=c];}\n\
        service S{}|service T{}\n\
        service S{rpc A(B)returns(C);}|service S{rpc D(B)returns(C);}\n\
        service S{rpc A(B)returns(C);}|service S{rpc A(D)returns(C);}\n\
        service S{rpc A(B)returns(C);}|service S{rpc A(B)returns(D);}\n\
        service S{rpc A(       B)returns(C);}|service S{rpc A(stream B)returns(C);}\n\
        service S{rpc A(B)returns(       C);}|service S{rpc A(B)returns(stream C);}\n\
        extend A{}|extend B{}\n\
        ",
    );
}

#[test]
fn equal_trees(rt: HostRuntime) {
    check_pairs(
        &rt,
        true,
        8,
        "\
        message M{/*a*/}|message M{/*b*/}\n\
        message M{}|message M{};; // c\n\
        import 'a';|import \"a\";\n\
        import 'abc\\x64';|import 'ab' 'cd';\n\
        message M{A x=010;}|message M{A x=0x8;}\n\
        option a={b };|option a={ b};\n\
        extend A{b}|extend A{c}\n\
        message M{A x=1;;}|message M{A x=1; }\n\
        ",
    );
}
