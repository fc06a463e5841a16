//! Trees of small texts, read back with every span.
use super::shown::check_tree;

#[test]
fn imports(rt: HostRuntime) {
    check_tree(
        &rt,
        "syntax='proto3';import 'a.proto';import public \"b\"; import weak 'c' /* x */ \"d\"\n\
         'e';",
        "0 16-33 import plain |a.proto| 23-32\n\
         0 33-51 import public |b| 47-50\n\
         0 52-84 import weak |cde| 64-83\n",
    );
    check_tree(
        &rt,
        "syntax='proto3';import 'a\\x62\\143\\u0064\\\\' '' \"\\\"'\";import \"\";",
        "0 16-52 import plain |abcd\\\"'| 23-51\n\
         0 52-62 import plain || 59-61\n",
    );
}

#[test]
fn packages(rt: HostRuntime) {
    check_tree(
        &rt,
        "syntax='proto3';package x; ; package a . b/**/.c\n\
         ;",
        "0 16-26 package x 24-25\n\
         0 29-50 package a.b.c 37-48\n",
    );
}

#[test]
fn option_names(rt: HostRuntime) {
    check_tree(
        &rt,
        "syntax='proto3';option (a.b).c=1;option (.a) = x ;",
        "0 16-33 option (a.b) 23-28 c 29-30 = integer 1 31-32 in 23-32\n\
         0 33-50 option (.a) 40-44 = identifier x 47-48 in 40-48\n",
    );
    check_tree(
        &rt,
        "syntax='proto3';option a . ( . b /* x */ . c ).d.(e)= - 1;",
        "0 16-58 option a 23-24 (.b.c) 27-46 d 47-48 (e) 49-52 = integer -1 54-57 in 23-57\n",
    );
}

#[test]
fn messages(rt: HostRuntime) {
    check_tree(
        &rt,
        "syntax='proto3';message M{};;message N{;message O{;};message P{message Q{}}}",
        "0 16-27 message M 24-25\n\
         0 29-76 message N 37-38\n\
         1 40-52 message O 48-49\n\
         1 53-75 message P 61-62\n\
         2 63-74 message Q 71-72\n",
    );
    check_tree(
        &rt,
        "syntax='proto3';message M{enum E{}extend X{message Y{}}option a=b;oneof o{}reserved 1;}",
        "0 16-87 message M 24-25\n\
         1 26-34 enum E 31-32\n\
         1 34-55 extend X 41-42\n\
         1 55-66 option a 62-63 = identifier b 64-65 in 62-65\n\
         1 66-75 oneof o 72-73\n\
         1 75-86 reserved numbers [1 84-85 in 84-85]\n",
    );
}

#[test]
fn fields(rt: HostRuntime) {
    check_tree(
        &rt,
        "syntax='proto3';message M{int32 x=1;optional .a.B y = 0x2 ; repeated a . b /* c */ . C z=3;}",
        "0 16-92 message M 24-25\n\
         1 26-36 field int32 26-31 x 32-33 = 1 34-35\n\
         1 36-59 field optional .a.B 45-49 y 50-51 = 2 54-57\n\
         1 60-91 field repeated a.b.C 69-86 z 87-88 = 3 89-90\n",
    );
    check_tree(
        &rt,
        "syntax='proto3';message M{. /**/ a\n\
         .b x=1 [ e=5 ];repeated A y=2[(k)='v',n.(.p) = { }];}",
        "0 16-88 message M 24-25\n\
         1 26-50 field .a.b 26-37 x 38-39 = 1 40-41 [e 44-45 = integer 5 46-47 in 44-47]\n\
         1 50-87 field repeated A 59-60 y 61-62 = 2 63-64 [(k) 65-68 = text 'v' 69-72 in 65-72] [n 73-74 (.p) 75-79 = aggregate { } 82-85 in 73-85]\n",
    );
}

// `map` is a keyword before `<`, and a type's name elsewhere.
#[test]
fn map_fields(rt: HostRuntime) {
    check_tree(
        &rt,
        "syntax='proto3';message M{map<string,.a . B>m=1;map < bool , map > map = 2 [x=y,z=w] ;}",
        "0 16-87 message M 24-25\n\
         1 26-48 map string 30-36 to .a.B 37-43 m 44-45 = 1 46-47\n\
         1 48-86 map bool 54-58 to map 61-64 map 67-70 = 2 73-74 [x 76-77 = identifier y 78-79 in 76-79] [z 80-81 = identifier w 82-83 in 80-83]\n",
    );
    check_tree(
        &rt,
        "syntax='proto3';message M{map x=1;map.y x=2[a=b];map . y/**/.z map=3;repeated map w=4;}",
        "0 16-87 message M 24-25\n\
         1 26-34 field map 26-29 x 30-31 = 1 32-33\n\
         1 34-49 field map.y 34-39 x 40-41 = 2 42-43 [a 44-45 = identifier b 46-47 in 44-47]\n\
         1 49-69 field map.y.z 49-62 map 63-66 = 3 67-68\n\
         1 69-86 field repeated map 78-81 w 82-83 = 4 84-85\n",
    );
}

#[test]
fn oneofs(rt: HostRuntime) {
    check_tree(
        &rt,
        "syntax='proto3';message M{oneof o{option a=b;int32 x=1[g=h,i=j];;.A y=2;}A z=3;}",
        "0 16-80 message M 24-25\n\
         1 26-73 oneof o 32-33\n\
         2 34-45 option a 41-42 = identifier b 43-44 in 41-44\n\
         2 45-64 field int32 45-50 x 51-52 = 1 53-54 [g 55-56 = identifier h 57-58 in 55-58] [i 59-60 = identifier j 61-62 in 59-62]\n\
         2 65-72 field .A 65-67 y 68-69 = 2 70-71\n\
         1 73-79 field A 73-74 z 75-76 = 3 77-78\n",
    );
    check_tree(
        &rt,
        "syntax='proto3';message M{oneof oneof{map m=1;map.y n=2;message message=3;reserved to=4;}}",
        "0 16-90 message M 24-25\n\
         1 26-89 oneof oneof 32-37\n\
         2 38-46 field map 38-41 m 42-43 = 1 44-45\n\
         2 46-56 field map.y 46-51 n 52-53 = 2 54-55\n\
         2 56-74 field message 56-63 message 64-71 = 3 72-73\n\
         2 74-88 field reserved 74-82 to 83-85 = 4 86-87\n",
    );
}

#[test]
fn reserved(rt: HostRuntime) {
    check_tree(
        &rt,
        "syntax='proto3';message M{reserved 1;reserved 2 to 3;reserved 4 /**/ to\n\
         max,0x6,07 to 99999999999999999999;}",
        "0 16-108 message M 24-25\n\
         1 26-37 reserved numbers [1 35-36 in 35-36]\n\
         1 37-53 reserved numbers [2 46-47 to 3 51-52 in 46-52]\n\
         1 53-107 reserved numbers [4 62-63 to max in 62-75] [6 76-79 in 76-79] [7 80-82 to none 86-106 in 80-106]\n",
    );
    check_tree(
        &rt,
        "syntax='proto3';message M{reserved 'a';reserved \"b\" , 'c\\x44','';}",
        "0 16-66 message M 24-25\n\
         1 26-39 reserved names [|a| 35-38]\n\
         1 39-65 reserved names [|b| 48-51] [|cD| 54-61] [|| 62-64]\n",
    );
}

// The body is skipped.
#[test]
fn extend_blocks(rt: HostRuntime) {
    check_tree(
        &rt,
        "syntax='proto3';extend A{}extend . a . B { int32 x : [ ( = ) ] ; {} }",
        "0 16-26 extend A 23-24\n\
         0 26-69 extend .a.B 33-40\n",
    );
    check_tree(
        &rt,
        "syntax='proto3';message M{extend a.B{message N{}};message N{extend .C{'s' 1.5 <}}}",
        "0 16-82 message M 24-25\n\
         1 26-49 extend a.B 33-36\n\
         1 50-81 message N 58-59\n\
         2 60-80 extend .C 67-69\n",
    );
}

#[test]
fn enums(rt: HostRuntime) {
    check_tree(
        &rt,
        "syntax='proto3';enum E{option a=true;A=0;;B = - 1 [c=1.5] ;C=-0x10;D=- 99999999999999999999;}",
        "0 16-93 enum E 21-22\n\
         1 23-37 option a 30-31 = identifier true 32-36 in 30-36\n\
         1 37-41 value A 37-38 = 0 39-40\n\
         1 42-59 value B 42-43 = -1 46-49 [c 51-52 = float 1.5 53-56 in 51-56]\n\
         1 59-67 value C 59-60 = -16 61-66\n\
         1 67-92 value D 67-68 = -none 69-91\n",
    );
    check_tree(
        &rt,
        "syntax='proto3';enum E{reserved -3 to - 1,5,- 0 to max;reserved 'X',\"Y\";}message M{enum enum{message=017;}}",
        "0 16-73 enum E 21-22\n\
         1 23-55 reserved numbers [-3 32-34 to -1 38-41 in 32-41] [5 42-43 in 42-43] [-0 44-47 to max in 44-54]\n\
         1 55-72 reserved names [|X| 64-67] [|Y| 68-71]\n\
         0 73-107 message M 81-82\n\
         1 83-106 enum enum 88-92\n\
         2 93-105 value message 93-100 = 15 101-104\n",
    );
}

#[test]
fn services(rt: HostRuntime) {
    check_tree(
        &rt,
        "syntax='proto3';service S{option a=b;rpc A(B)returns(C);;rpc D(stream .b.E)returns(.F){option c=d;;}}",
        "0 16-101 service S 24-25\n\
         1 26-37 option a 33-34 = identifier b 35-36 in 33-36\n\
         1 37-56 rpc A 41-42 from B 43-44 to C 53-54\n\
         1 57-100 rpc D 61-62 from stream .b.E 70-74 to .F 83-85\n\
         2 87-98 option c 94-95 = identifier d 96-97 in 94-97\n",
    );
    check_tree(
        &rt,
        "syntax='proto3';service service{rpc rpc ( stream.A ) returns ( stream stream ) ;rpc returns(a . returns)returns(stream B){};rpc stream(.stream)returns(stream.stream . C){}}service T{}",
        "0 16-172 service service 24-31\n\
         1 32-80 rpc rpc 36-39 from stream .A 48-50 to stream stream 70-76\n\
         1 80-123 rpc returns 84-91 from a.returns 92-103 to stream B 119-120\n\
         1 124-171 rpc stream 128-134 from .stream 135-142 to stream .stream.C 157-168\n\
         0 172-183 service T 180-181\n",
    );
}

#[test]
fn keywords_as_names(rt: HostRuntime) {
    check_tree(
        &rt,
        "syntax='proto3';package syntax.package;message message{option x=1;optional message option=1;repeated optional repeated=2;to max=3;.required required=4;}",
        "0 16-39 package syntax.package 24-38\n\
         0 39-152 message message 47-54\n\
         1 55-66 option x 62-63 = integer 1 64-65 in 62-65\n\
         1 66-92 field optional message 75-82 option 83-89 = 1 90-91\n\
         1 92-121 field repeated optional 101-109 repeated 110-118 = 2 119-120\n\
         1 121-130 field to 121-123 max 124-127 = 3 128-129\n\
         1 130-151 field .required 130-139 required 140-148 = 4 149-150\n",
    );
}

// Texts of up to 24 bytes are kept in the value itself, longer ones in an allocation.
#[test]
fn short_and_long_texts(rt: HostRuntime) {
    check_tree(
        &rt,
        "syntax='proto3';package abcdefghijklmnopqrstuvw;package abcdefghijklmnopqrstuvwx;\
         package abcdefghijklmnopqrstuvwxy;",
        "0 16-48 package abcdefghijklmnopqrstuvw 24-47\n\
         0 48-81 package abcdefghijklmnopqrstuvwx 56-80\n\
         0 81-115 package abcdefghijklmnopqrstuvwxy 89-114\n",
    );
    check_tree(
        &rt,
        "syntax='proto3';option a='ééééééééééé';option a='éééééééééééé';",
        "0 16-50 option a 23-24 = text 'ééééééééééé' 25-49 in 23-49\n\
         0 50-86 option a 57-58 = text 'éééééééééééé' 59-85 in 57-85\n",
    );
}
