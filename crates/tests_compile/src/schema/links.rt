//! Links: which files a file exports, sees and reaches, and the rings of imports.
use super::check_rows;

#[test]
fn chains(rt: HostRuntime) {
    check_rows(
        &rt,
        "\
        a: import 'b';\n\
        b: import public 'c';\n\
        c: import public 'd';import 'e';\n\
        d: import 'e';\n\
        e: message M{}\n\
        f: import weak 'b';import weak public 'c';\n\
        g: import weak 'b';import weak 'd';\n\
        ",
        8,
        "\
        Linked a => a | a b c d | a b c d e \n\
        Linked b => b c d | b c d | b c d e \n\
        Linked c => c d | c d e | c d e \n\
        Linked e => e | e | e \n\
        Linked f => f | f | f \n\
        Linked g => g | g b c d | g b c d e \n\
        Scope a => a b c d | a b c d e \n\
        Scope f => f | f \n\
        ",
    );
}

// Of imports of one name and one publicity the first counts.
#[test]
fn repeated_and_absent(rt: HostRuntime) {
    check_rows(
        &rt,
        "\
        a: import 'gone';import public 'gone';import 'b';\n\
        b: import 'c';import 'd';import public 'c';import weak 'd';import 'c';import public 'c';\n\
        c: import public 'e';\n\
        d: import public 'c';\n\
        e: \n\
        f: import '\\xff';import 'd';import '\\xc3''\\xa9';import 'd\\x80';\n\
        g: import 'f';import 'a' message M{}\n\
        ",
        16,
        "\
        Parse a => 3 statements\n\
        Parse g => fault 38-45\n\
        Parse gone => absent\n\
        Imports a => gone plain;gone public;b plain;\n\
        Linked a => a | a b c e | a b c e d \n\
        Imports b => c plain;d plain;c public;\n\
        Linked b => b c e | b c e d | b c e d \n\
        Imports f => d plain;é plain;\n\
        Linked f => f | f d c e | f d c e \n\
        Imports g => \n\
        Linked g => g | g | g \n\
        Imports gone => absent\n\
        Linked gone => | | \n\
        Scope gone => | \n\
        Resolved gone => \n\
        Defs gone =>  |\n\
        ",
    );
}

// The order is that of the first visits, depth first.
#[test]
fn orders(rt: HostRuntime) {
    check_rows(
        &rt,
        "\
        a: import public 'b';import public 'c';import 'd';\n\
        b: import public 'e';\n\
        c: import public 'b';import 'f';\n\
        d: import public 'c';import 'h';\n\
        e: \n\
        f: import 'g';\n\
        g: \n\
        h: import public 'g';import 'e';\n\
        ",
        4,
        "\
        Linked a => a b e c | a b e c d | a b e c f g d h \n\
        Linked d => d c b e | d c b e h g | d c b e f g h \n\
        Linked c => c b e | c b e f | c b e f g \n\
        Linked h => h g | h g e | h g e \n\
        ",
    );
}

#[test]
fn rings(rt: HostRuntime) {
    check_rows(
        &rt,
        "\
        a.proto: import 'b.proto';\n\
        b.proto: import 'a.proto';\n\
        c.proto: import 'a.proto';\n\
        self: import 'self';message M{M x=1;}\n\
        ",
        6,
        "\
        Linked a.proto => Linked a.proto;Linked b.proto;\n\
        Linked b.proto => Linked a.proto;Linked b.proto;\n\
        Linked c.proto => Linked a.proto;Linked b.proto;\n\
        Linked self => Linked self;\n\
        Scope self => | \n\
        Resolved self => 2 type NotFound;\n\
        ",
    );
}

// Each bad file leads to the ring of its first bad import. Good files stay good.
#[test]
fn rings_of_many(rt: HostRuntime) {
    check_rows(
        &rt,
        "\
        a: import 'good';import 'm';import 'b';\n\
        b: import 'gone';import 'a';\n\
        bad: import 'm' import 'a';\n\
        good: import 'gone';message M{}\n\
        k: import weak 'm';import 'k';\n\
        last: import 'good';import 'on';import 'two';\n\
        m: import public 'z';import 'a';\n\
        on: import 'two';\n\
        two: import 'two';import 'a';\n\
        z: import 'bad';import 'k';\n\
        ",
        10,
        "\
        Linked a => Linked k;Linked m;Linked z;\n\
        Linked b => Linked k;Linked m;Linked z;\n\
        Linked z => Linked k;Linked m;Linked z;\n\
        Linked k => Linked k;Linked m;Linked z;\n\
        Linked on => Linked two;\n\
        Linked last => Linked two;\n\
        Linked bad => bad | bad | bad \n\
        Linked good => good | good | good \n\
        Scope last => | \n\
        Resolved b => \n\
        ",
    );
}
