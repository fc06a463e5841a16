//! Edits whose text is prepared, and which changes are long.
use super::check_parts;

// An edit whose text was prepared does what the edit does. It is prepared again where its file has
// another text by then, also where the file came or went.
#[test]
fn prepared_edits(rt: HostRuntime) {
    check_parts(
        &rt,
        41,
        "\
        open => 0\n\
        edit 0 low a=ab => 1\n\
        late 0 low a~0:1-0:1 x ; low b=y => 2, 3\n\
        text a => axb\n\
        late 0 low a~0:1-0:1 y ; low a=ab => 4, stale, 5\n\
        text a => ayb\n\
        late 0 low a~0:1-0:1 z ; high a=ayb => 6, 7\n\
        text a => azyb\n\
        late 0 low c~all x | 0:1-0:1 y ; low c => 8, 9\n\
        text c => xy\n\
        late 0 low d~all x ; low d= => 10, stale, 11\n\
        text d => x\n\
        late 0 low a~0:0-0:0 x ; low a => 12, stale, the range is bad; back 1|x\n\
        text a => absent\n\
        late 0 low a~0:0-0:0 x ; low a=b => 13, stale, 14\n\
        text a => xb\n\
        late 0 low a~0:9-1:0 x ; low b= => 15, the range is bad; back 1|x\n\
        late 0 low a~all 1048577*. | 0:0-0:0 x ; low b= => 16, the edit was refused: the text is too long; back 2|1048577|x\n\
        late 0 low a~all 1048577*. | 0:1-0:1048577 x ; low b= => 17, 18\n\
        text a => .x\n\
        late 0 low a=c ; low b= => 19, 20\n\
        text a => c\n\
        late 0 low a ; low a=c => 21, 22\n\
        text a => absent\n\
        late 1 low a~0:0-0:0 x ; low b= => no such client, no such client; back 1|x\n\
        accept 0 7 Sum b => 0\n\
        start => 0\n\
        late 0 low b~0:0-0:0 a ; low c= => 23, 24\n\
        look 0 => stopped\n\
        close 0 => yes\n\
        late 0 low b~0:0-0:0 x ; low b= => the client was closed, the client was closed; back 1|x\n\
        text b => a\n\
        new store\n\
        long low a~16 of 0:0-0:0 x => no\n\
        long low a~17 of 0:0-0:0 '' => yes\n\
        long low a~all 1048576*x => no\n\
        long low a~all 1048577*x => yes\n\
        long low a~16 of all 65536*x => no\n\
        long low a~15 of all 65536*x | 0:0-0:0 65537*x => yes\n\
        long low a=1048577*x => no\n\
        long low a => no\n\
        ",
    );
}
