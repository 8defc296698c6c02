use crate::texts::Want;

/// Texts of classes with one or two methods.
pub const METHODS: [(&str, Want); 76] = [
    (
        "class A {\n//@ requires y < 1;\nstatic void f(int x) { }\n}",
        Want::Token(23, 24),
    ),
    (
        "class A {\n//@ requires y < 1;\nstatic void f(int y) { }\n}",
        Want::Methods(1),
    ),
    (
        "class A {\n//@ requires y < 1; requires x + < 1;\nstatic void f(int x) { }\n}",
        Want::Token(23, 24),
    ),
    (
        "class A {\n//@ requires y + < 1;\nstatic \n}",
        Want::Token(27, 28),
    ),
    (
        "class A {\n//@ requires y < 1;\nstatic void f(int x, int x) { }\n}",
        Want::Token(23, 24),
    ),
    (
        "class A {\n//@ requires x < 1;\nstatic void f(int x, int x) { }\n}",
        Want::Token(55, 56),
    ),
    (
        "class A {\n//@ requires y < 1;\nstatic void f(int x int y) { }\n}",
        Want::Token(50, 53),
    ),
    (
        "class A {\n//@ requires \\result < 1;\nstatic int f(int x) { return x; }\n}",
        Want::Token(23, 30),
    ),
    (
        "class A {\n//@ requires class < 1;\nstatic void f(int x) { }\n}",
        Want::Token(23, 28),
    ),
    (
        "class A {\n//@ requires x < 1; ensures true < y;\nstatic void f(int x) { }\n}",
        Want::Token(38, 42),
    ),
    (
        "class A {\n//@ requires requires < y;\nstatic void f(int x) { }\n}",
        Want::Token(23, 31),
    ),
    (
        "class A {\n//@ requires x < 2147483648;\nstatic void f(int x) { }\n}",
        Want::Token(27, 37),
    ),
    (
        "class A {\n//@ requires x < 1_0;\nstatic void f(int x) { }\n}",
        Want::Token(27, 30),
    ),
    (
        "class A {\n//@ requires x < 5L;\nstatic void f(int x) { }\n}",
        Want::Token(27, 29),
    ),
    (
        "class A {\n//@ requires x <= 2147483647;\nstatic void f(int x) { }\n}",
        Want::Methods(1),
    ),
    (
        "class A {\n//@ requires x = 1;\nstatic void f(int x) { }\n}",
        Want::Token(25, 26),
    ),
    (
        "class A {\n//@ requires x < 1 < 2;\nstatic void f(int x) { }\n}",
        Want::Token(29, 30),
    ),
    (
        "class A {\n//@ requires x < 1;\nrequires x < 1; static void f(int x) { }\n}",
        Want::Token(30, 38),
    ),
    (
        "class A {\n//@ ensure x < 1;\nstatic void f(int x) { }\n}",
        Want::Token(14, 20),
    ),
    (
        "class A {\n//@ ensures x < 1; requires x < 1;\nstatic void f(int x) { }\n}",
        Want::Token(29, 37),
    ),
    (
        "class A {\n//@ ensures \\result < 1;\nstatic void f(int x) { }\n}",
        Want::Token(42, 46),
    ),
    (
        "class A {\n//@ ensures \\result < 1; ensures z < 1;\nstatic void f(int x) { }\n}",
        Want::Token(43, 44),
    ),
    (
        "class A {\n//@ ensures \\result < 1;\nstatic long f(int x) { }\n}",
        Want::Token(42, 46),
    ),
    (
        "class A {\n//@ ensures \\old < 1;\nstatic int f(int x) { return x; }\n}",
        Want::Token(22, 26),
    ),
    (
        "class A {\n//@ ensures \\result == x - 1 + 0;\nstatic int f(int x) { return x; }\n}",
        Want::Methods(1),
    ),
    (
        "class A {\n//@ requires x < 1; static void g() { }\nstatic void f(int x) { }\n}",
        Want::Token(30, 36),
    ),
    (
        "class A {\nstatic void f(int x) { int x = 1; }\n}",
        Want::Token(37, 38),
    ),
    (
        "class A {\nstatic void f() { int x = 1; int x = 2; }\n}",
        Want::Token(43, 44),
    ),
    (
        "class A {\nstatic void f() { int x = x; }\n}",
        Want::Token(36, 37),
    ),
    (
        "class A {\nstatic void f() { x = 1; }\n}",
        Want::Token(28, 29),
    ),
    (
        "class A {\nstatic void f() { int x = 1; x = x + y; }\n}",
        Want::Token(47, 48),
    ),
    (
        "class A {\nstatic void f() { int x = 1;; }\n}",
        Want::Token(38, 39),
    ),
    (
        "class A {\nstatic void f() { } static void f() { }\n}",
        Want::Token(42, 43),
    ),
    (
        "class A {\nstatic void f() { } static int f(int x) { return x; }\n}",
        Want::Token(41, 42),
    ),
    (
        "class A {\nstatic void f() { return 1; }\n}",
        Want::Token(28, 34),
    ),
    ("class A {\nstatic int f() { }\n}", Want::Token(27, 28)),
    (
        "class A {\nstatic int f() { return 1; return 2; }\n}",
        Want::Token(37, 43),
    ),
    (
        "class A {\nstatic int f() { return 1; int x = 1; }\n}",
        Want::Token(37, 40),
    ),
    (
        "class A {\nstatic int f() { int x = 1; return x; }\n}",
        Want::Methods(1),
    ),
    (
        "class A {\nstatic void f() { int x = 1; x = 2; x = x + x - 3; }\n}",
        Want::Methods(1),
    ),
    ("class A {\nstatic void f(x) { }\n}", Want::Token(24, 25)),
    (
        "class A {\nstatic void f(int a,) { }\n}",
        Want::Token(30, 31),
    ),
    (
        "class A {\nstatic void f(int a, int b, int c) { }\n}",
        Want::Methods(1),
    ),
    (
        "class A {\nstatic void f(int true) { }\n}",
        Want::Token(28, 32),
    ),
    ("class A {\nstatic void null() { }\n}", Want::Token(22, 26)),
    (
        "class A {\nstatic void f() { int x = -1; }\n}",
        Want::Token(36, 37),
    ),
    (
        "class A {\nstatic void f() { int x = 1 + -1; }\n}",
        Want::Token(40, 41),
    ),
    (
        "class A {\nstatic void f() { int x = (1); }\n}",
        Want::Token(36, 37),
    ),
    (
        "class A {\nstatic void f() { int x == 1; }\n}",
        Want::Token(34, 36),
    ),
    (
        "class A {\nstatic void f() {\n//@ assert 0 < 1;\n}\n}",
        Want::Methods(1),
    ),
    (
        "class A {\nstatic void f() {\n//@ assert 0 < x;\n}\n}",
        Want::Token(43, 44),
    ),
    (
        "class A {\nstatic void f() {\n//@ assert \\result < 1;\n}\n}",
        Want::Token(39, 46),
    ),
    (
        "class A {\nstatic void f() { assert 0 < 1; }\n}",
        Want::Token(28, 34),
    ),
    (
        "class A {\nstatic void f() {\n//@ int x = 1;\n}\n}",
        Want::Token(32, 35),
    ),
    (
        "class A {\nstatic void f() { int x = 1;\n//@ assert x < 1\n;\n}\n}",
        Want::Token(56, 57),
    ),
    ("class A {\nint x;\n}", Want::Token(10, 13)),
    (
        "class A {\n//@ requires y < 1;\nstatic void f(int a,) { }\n}",
        Want::Token(50, 51),
    ),
    (
        "class A {\n//@ requires y < 1;\nstatic void f(int true) { }\n}",
        Want::Token(48, 52),
    ),
    (
        "class A {\n//@ requires y < 1;\nstatic long f(int x) { }\n}",
        Want::Token(37, 41),
    ),
    (
        "class A {\n//@ requires y < 1;\nstatic void f(int x);\n}",
        Want::Token(23, 24),
    ),
    (
        "class A {\n//@ requires y < 1;\nstatic void f()\n",
        Want::Token(23, 24),
    ),
    (
        "class A {\n//@ requires y < 1;\nstatic void f(\n",
        Want::End,
    ),
    (
        "class A {\n//@ requires y < 1; x\nstatic void f(int z) { }\n}",
        Want::Token(23, 24),
    ),
    (
        "class A {\n//@ requires y < 1;\nint static void f(int x) { }\n}",
        Want::Token(30, 33),
    ),
    (
        "class A {\n//@ ensures \\result < y;\nstatic void f(int x) { }\n}",
        Want::Token(32, 33),
    ),
    (
        "class A {\n//@ ensures \\result < x;\nstatic void f(int x) { }\n}",
        Want::Token(42, 46),
    ),
    (
        "class A {\n//@ requires y < 1;\nstatic void f(int x) { }\nstatic f() { }\n}",
        Want::Token(23, 24),
    ),
    (
        "class A {\n//@ requires x < 1;\nstatic void f(int x) { }\n//@ requires x < 1;\nstatic void g(int y) { }\n}",
        Want::Token(68, 69),
    ),
    (
        "class A {\n//@ requires x < 1;\nstatic void f(int x) { y = 1; }\n//@ requires x < 1;\nstatic void g(int y) { }\n}",
        Want::Token(53, 54),
    ),
    (
        "class A {\nstatic void f() { }\n//@ requires x < 1;\nstatic void f(int y) { }\n}",
        Want::Token(43, 44),
    ),
    (
        "class A {\nstatic void f() { int x = 1; }\nstatic void g() { x = 2; }\n}",
        Want::Token(59, 60),
    ),
    (
        "class A {\n//@ ensures \\result < 1;\nstatic int f() { return 0; }\nstatic void g() { }\n}",
        Want::Methods(2),
    ),
    (
        "class A {\n/*@ requires x < 1; */ /* a */ //@ ensures x < 2; // b\nstatic void f(int x) { }\n}",
        Want::Methods(1),
    ),
    (
        "class A {\nstatic int f(int x) { return x + ; }\n}",
        Want::Token(43, 44),
    ),
    (
        "class A {\nstatic int f(int x) { return x }\n}",
        Want::Token(41, 42),
    ),
    (
        "class A {\nstatic int f(int x) { return x; ; }\n}",
        Want::Token(42, 43),
    ),
];
