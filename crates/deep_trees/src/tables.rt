//! Sources with their trees, or with the rules and the spots of their refusals, as an independent model of the
//! language gives them. A node is its spot and its parts in parentheses, and a list stands in brackets.

/// A front, a text that is repeated, a middle, one that is repeated as often, and a back.
pub type Repeated = [&'static str; 5];

/// A source with its tree or its refusal.
pub type Row = (&'static [u8], &'static str);

/// Each node of an expression.
pub const EXPRESSIONS: [Row; 5] = [
    (
        b"void f(void) {7;7u;'a';\"hi\";NULL;true;false;x;}",
        "function (1:6 f void [] false (1:15 Express (1:15 I32 7))(1:17 Express (1:17 U32 7))(1:20 Express (1:20 I32 97))(1:24 Express (1:24 text hi))(1:29 Express (1:29 NULL))(1:34 Express (1:34 I32 1))(1:39 Express (1:39 I32 0))(1:45 Express (1:45 x)))end 1:48",
    ),
    (
        b"void f(void) {-a;+a;!a;~a;*a;&a;++a;--a;a++;a--;}",
        "function (1:6 f void [] false (1:15 Express (1:15 Neg (1:16 a)))(1:18 Express (1:18 Plus (1:19 a)))(1:21 Express (1:21 Not (1:22 a)))(1:24 Express (1:24 Flip (1:25 a)))(1:27 Express (1:27 Deref (1:28 a)))(1:30 Express (1:30 Address (1:31 a)))(1:33 Express (1:33 Bump true true (1:35 a)))(1:37 Express (1:37 Bump false true (1:39 a)))(1:41 Express (1:41 Bump true false (1:41 a)))(1:45 Express (1:45 Bump false false (1:45 a))))end 1:50",
    ),
    (
        b"void f(void) {a[1];a.b;a->b;g();g(1,a=2);sizeof(int*);(long)a;a?b:c;a&&b;a||b;}",
        "function (1:6 f void [] false (1:15 Express (1:15 Index (1:15 a) (1:17 I32 1)))(1:20 Express (1:20 Field (1:20 a) b))(1:24 Express (1:24 Arrow (1:24 a) b))(1:29 Express (1:29 Call g []))(1:33 Express (1:33 Call g [(1:35 I32 1)(1:37 Assign None (1:37 a) (1:39 I32 2))]))(1:42 Express (1:42 SizeOf (1:49 false false I32 1)))(1:55 Express (1:55 Cast (1:56 false false I64 0) (1:61 a)))(1:63 Express (1:63 Choose (1:63 a) (1:65 b) (1:67 c)))(1:69 Express (1:69 Logic true (1:69 a) (1:72 b)))(1:74 Express (1:74 Logic false (1:74 a) (1:77 b))))end 1:80",
    ),
    (
        b"void f(void) {a=b;a+=b;a-=b;a*=b;a/=b;a%=b;a&=b;a|=b;a^=b;a<<=b;a>>=b;}",
        "function (1:6 f void [] false (1:15 Express (1:15 Assign None (1:15 a) (1:17 b)))(1:19 Express (1:19 Assign Some(Add) (1:19 a) (1:22 b)))(1:24 Express (1:24 Assign Some(Sub) (1:24 a) (1:27 b)))(1:29 Express (1:29 Assign Some(Mul) (1:29 a) (1:32 b)))(1:34 Express (1:34 Assign Some(Div) (1:34 a) (1:37 b)))(1:39 Express (1:39 Assign Some(Rem) (1:39 a) (1:42 b)))(1:44 Express (1:44 Assign Some(And) (1:44 a) (1:47 b)))(1:49 Express (1:49 Assign Some(Or) (1:49 a) (1:52 b)))(1:54 Express (1:54 Assign Some(Xor) (1:54 a) (1:57 b)))(1:59 Express (1:59 Assign Some(Shl) (1:59 a) (1:63 b)))(1:65 Express (1:65 Assign Some(Shr) (1:65 a) (1:69 b))))end 1:72",
    ),
    (
        b"void f(void) {a+b;a-b;a*b;a/b;a%b;a<<b;a>>b;a&b;a|b;a^b;a<b;a<=b;a>b;a>=b;a==b;a!=b;}",
        "function (1:6 f void [] false (1:15 Express (1:15 Add (1:15 a) (1:17 b)))(1:19 Express (1:19 Sub (1:19 a) (1:21 b)))(1:23 Express (1:23 Mul (1:23 a) (1:25 b)))(1:27 Express (1:27 Div (1:27 a) (1:29 b)))(1:31 Express (1:31 Rem (1:31 a) (1:33 b)))(1:35 Express (1:35 Shl (1:35 a) (1:38 b)))(1:40 Express (1:40 Shr (1:40 a) (1:43 b)))(1:45 Express (1:45 And (1:45 a) (1:47 b)))(1:49 Express (1:49 Or (1:49 a) (1:51 b)))(1:53 Express (1:53 Xor (1:53 a) (1:55 b)))(1:57 Express (1:57 Less (1:57 a) (1:59 b)))(1:61 Express (1:61 LessEq (1:61 a) (1:64 b)))(1:66 Express (1:66 Greater (1:66 a) (1:68 b)))(1:70 Express (1:70 GreaterEq (1:70 a) (1:73 b)))(1:75 Express (1:75 Equal (1:75 a) (1:78 b)))(1:80 Express (1:80 NotEqual (1:80 a) (1:83 b))))end 1:86",
    ),
];

/// Which operator binds tighter, and to which side.
pub const LEVELS: [Row; 4] = [
    (
        b"void f(void) {a||b&&c|d^e&f==g<h<<i+j*k;}",
        "function (1:6 f void [] false (1:15 Express (1:15 Logic false (1:15 a) (1:18 Logic true (1:18 b) (1:21 Or (1:21 c) (1:23 Xor (1:23 d) (1:25 And (1:25 e) (1:27 Equal (1:27 f) (1:30 Less (1:30 g) (1:32 Shl (1:32 h) (1:35 Add (1:35 i) (1:37 Mul (1:37 j) (1:39 k)))))))))))))end 1:42",
    ),
    (
        b"void f(void) {a*b+c<<d<e==f&g^h|i&&j||k;}",
        "function (1:6 f void [] false (1:15 Express (1:15 Logic false (1:15 Logic true (1:15 Or (1:15 Xor (1:15 And (1:15 Equal (1:15 Less (1:15 Shl (1:15 Add (1:15 Mul (1:15 a) (1:17 b)) (1:19 c)) (1:22 d)) (1:24 e)) (1:27 f)) (1:29 g)) (1:31 h)) (1:33 i)) (1:36 j)) (1:39 k))))end 1:42",
    ),
    (
        b"void f(void) {a-b-c;a=b=c;a?b:c?d:e;a?b:c=d;a=b?c=d:e;}",
        "function (1:6 f void [] false (1:15 Express (1:15 Sub (1:15 Sub (1:15 a) (1:17 b)) (1:19 c)))(1:21 Express (1:21 Assign None (1:21 a) (1:23 Assign None (1:23 b) (1:25 c))))(1:27 Express (1:27 Choose (1:27 a) (1:29 b) (1:31 Choose (1:31 c) (1:33 d) (1:35 e))))(1:37 Express (1:37 Assign None (1:37 Choose (1:37 a) (1:39 b) (1:41 c)) (1:43 d)))(1:45 Express (1:45 Assign None (1:45 a) (1:47 Choose (1:47 b) (1:49 Assign None (1:49 c) (1:51 d)) (1:53 e)))))end 1:56",
    ),
    (
        b"void f(void) {-a*b;-a[1]++;*p++;&a.b->c[d];!a==b;- -a;a- -b;a++ + ++b;}",
        "function (1:6 f void [] false (1:15 Express (1:15 Mul (1:15 Neg (1:16 a)) (1:18 b)))(1:20 Express (1:20 Neg (1:21 Bump true false (1:21 Index (1:21 a) (1:23 I32 1)))))(1:28 Express (1:28 Deref (1:29 Bump true false (1:29 p))))(1:33 Express (1:33 Address (1:34 Index (1:34 Arrow (1:34 Field (1:34 a) b) c) (1:41 d))))(1:44 Express (1:44 Equal (1:44 Not (1:45 a)) (1:48 b)))(1:50 Express (1:50 Neg (1:52 Neg (1:53 a))))(1:55 Express (1:55 Sub (1:55 a) (1:58 Neg (1:59 b))))(1:61 Express (1:61 Add (1:61 Bump true false (1:61 a)) (1:67 Bump true true (1:69 b)))))end 1:72",
    ),
];

/// A cast, or an expression in parentheses.
pub const CASTS: [Row; 3] = [
    (
        b"void f(void) {(int)x;(x);((x));(int)(x);((int)x)[0];(x)[0];(int)x[0];-(int)x;(int)-x;}",
        "function (1:6 f void [] false (1:15 Express (1:15 Cast (1:16 false false I32 0) (1:20 x)))(1:22 Express (1:23 x))(1:26 Express (1:28 x))(1:32 Express (1:32 Cast (1:33 false false I32 0) (1:38 x)))(1:41 Express (1:41 Index (1:42 Cast (1:43 false false I32 0) (1:47 x)) (1:50 I32 0)))(1:53 Express (1:53 Index (1:54 x) (1:57 I32 0)))(1:60 Express (1:60 Cast (1:61 false false I32 0) (1:65 Index (1:65 x) (1:67 I32 0))))(1:70 Express (1:70 Neg (1:71 Cast (1:72 false false I32 0) (1:76 x))))(1:78 Express (1:78 Cast (1:79 false false I32 0) (1:83 Neg (1:84 x)))))end 1:87",
    ),
    (
        b"void f(void) {(frozen struct s*)p;(obliv frozen unsigned)p;(char)(bool)x;(a=b)+c;f((int)x,(x));}",
        "function (1:6 f void [] false (1:15 Express (1:15 Cast (1:16 true false s 1) (1:33 p)))(1:35 Express (1:35 Cast (1:36 true true U32 0) (1:58 p)))(1:60 Express (1:60 Cast (1:61 false false I8 0) (1:66 Cast (1:67 false false Bool 0) (1:72 x))))(1:74 Express (1:74 Add (1:75 Assign None (1:75 a) (1:77 b)) (1:80 c)))(1:82 Express (1:82 Call f [(1:84 Cast (1:85 false false I32 0) (1:89 x))(1:92 x)])))end 1:97",
    ),
    (
        b"void f(void) {(int)(x)++;sizeof(struct s)*2;}",
        "function (1:6 f void [] false (1:15 Express (1:15 Cast (1:16 false false I32 0) (1:20 Bump true false (1:21 x))))(1:26 Express (1:26 Mul (1:26 SizeOf (1:33 false false s 0)) (1:43 I32 2))))end 1:46",
    ),
];

/// Each statement, and to which `if` an `else` belongs.
pub const STATEMENTS: [Row; 7] = [
    (
        b"void f(void) {;{}{;{a;}}return;return a;break;continue;}",
        "function (1:6 f void [] false (1:15 Empty)(1:16 Block [])(1:18 Block [(1:19 Empty)(1:20 Block [(1:21 Express (1:21 a))])])(1:25 Return -)(1:32 Return (1:39 a))(1:41 Break)(1:47 Continue))end 1:57",
    ),
    (
        b"void f(void) {int a;int b=1,*c[2][0x3],d;struct s*e=NULL,g;frozen obliv int h;obliv frozen char i=b=2;}",
        "function (1:6 f void [] false (1:15 Declare [(1:19 a 1:15 false false I32 0 [])-])(1:21 Declare [(1:25 b 1:21 false false I32 0 [])(1:27 I32 1)(1:30 c 1:21 false false I32 1 [2, 3])-(1:40 d 1:21 false false I32 0 [])-])(1:42 Declare [(1:51 e 1:42 false false s 1 [])(1:53 NULL)(1:58 g 1:42 false false s 0 [])-])(1:60 Declare [(1:77 h 1:60 true true I32 0 [])-])(1:79 Declare [(1:97 i 1:79 true true I8 0 [])(1:99 Assign None (1:99 b) (1:101 I32 2))]))end 1:104",
    ),
    (
        b"void f(void) {while(a);for(;;);for(int i=0,*j;i<3;i++)a;for(a;;b){}}",
        "function (1:6 f void [] false (1:15 While (1:21 a) (1:23 Empty))(1:24 For Nothing - - (1:31 Empty))(1:32 For Declare [(1:40 i 1:36 false false I32 0 [])(1:42 I32 0)(1:45 j 1:36 false false I32 1 [])-] (1:47 Less (1:47 i) (1:49 I32 3)) (1:51 Bump true false (1:51 i)) (1:55 Express (1:55 a)))(1:57 For Express (1:61 a) - (1:64 b) (1:66 Block [])))end 1:69",
    ),
    (
        b"void f(void) {if(a);if(a)b;else c;obliv if(a)b;else c;~obliv(en){a;}~a;}",
        "function (1:6 f void [] false (1:15 If (1:18 a) (1:20 Empty) -)(1:21 If (1:24 a) (1:26 Express (1:26 b)) (1:33 Express (1:33 c)))(1:35 OblivIf (1:44 a) (1:46 Express (1:46 b)) (1:53 Express (1:53 c)))(1:55 Always en (1:65 Block [(1:66 Express (1:66 a))]))(1:69 Express (1:69 Flip (1:70 a))))end 1:73",
    ),
    (
        b"void f(void) {if(a)if(b)c;else d;if(a){if(b)c;}else d;if(a)if(b)c;else d;else e;}",
        "function (1:6 f void [] false (1:15 If (1:18 a) (1:20 If (1:23 b) (1:25 Express (1:25 c)) (1:32 Express (1:32 d))) -)(1:34 If (1:37 a) (1:39 Block [(1:40 If (1:43 b) (1:45 Express (1:45 c)) -)]) (1:53 Express (1:53 d)))(1:55 If (1:58 a) (1:60 If (1:63 b) (1:65 Express (1:65 c)) (1:72 Express (1:72 d))) (1:79 Express (1:79 e))))end 1:82",
    ),
    (
        b"void f(void) {if(a)while(b)for(;;)obliv if(c)d;else e;else g;}",
        "function (1:6 f void [] false (1:15 If (1:18 a) (1:20 While (1:26 b) (1:28 For Nothing - - (1:35 OblivIf (1:44 c) (1:46 Express (1:46 d)) (1:53 Express (1:53 e))))) (1:60 Express (1:60 g))))end 1:63",
    ),
    (
        b"void f(void) {obliv if(a)if(b);else obliv if(c);else;else ~obliv(x){}}",
        "function (1:6 f void [] false (1:15 OblivIf (1:24 a) (1:26 If (1:29 b) (1:31 Empty) (1:37 OblivIf (1:46 c) (1:48 Empty) (1:53 Empty))) (1:59 Always x (1:68 Block []))))end 1:71",
    ),
];

/// Struct definitions, functions and types.
pub const HEADINGS: [Row; 6] = [
    (b"", "end 1:1"),
    (
        b"struct s{bool a;_Bool b;char c;signed char d;unsigned char e;short f;short int g;unsigned short h;int i;};",
        "struct (1:8 s [(1:15 a 1:10 false false Bool 0 [])(1:23 b 1:17 false false Bool 0 [])(1:30 c 1:25 false false I8 0 [])(1:44 d 1:32 false false I8 0 [])(1:60 e 1:46 false false U8 0 [])(1:68 f 1:62 false false I16 0 [])(1:80 g 1:70 false false I16 0 [])(1:97 h 1:82 false false U16 0 [])(1:103 i 1:99 false false I32 0 [])])end 1:107",
    ),
    (
        b"struct s{signed j;unsigned k;unsigned int l;long m;long long n;long int o;unsigned long long int p;signed long q;};",
        "struct (1:8 s [(1:17 j 1:10 false false I32 0 [])(1:28 k 1:19 false false U32 0 [])(1:43 l 1:30 false false U32 0 [])(1:50 m 1:45 false false I64 0 [])(1:62 n 1:52 false false I64 0 [])(1:73 o 1:64 false false I64 0 [])(1:98 p 1:75 false false U64 0 [])(1:112 q 1:100 false false I64 0 [])])end 1:116",
    ),
    (
        b"struct s{frozen obliv int*a,b[2][3];struct t**c;};struct t{frozen struct s d;};",
        "struct (1:8 s [(1:27 a 1:10 true true I32 1 [])(1:29 b 1:10 true true I32 0 [2, 3])(1:47 c 1:37 false false t 2 [])])struct (1:58 t [(1:76 d 1:60 true false s 0 [])])end 1:80",
    ),
    (
        b"void f();void f(void)obliv;int g(int a,char*b,struct s c[],frozen bool d[4])obliv{}struct s{int a;};struct s*h(struct s a){}struct s i(){}",
        "struct (1:91 s [(1:97 a 1:93 false false I32 0 [])])function (1:6 f void [] false -)function (1:15 f void [] true -)function (1:32 g (1:28 false false I32 0) [(1:38 a 1:34 false false I32 0 Plain)(1:45 b 1:40 false false I8 1 Plain)(1:56 c 1:47 false false s 0 Open)(1:72 d 1:60 true false Bool 0 Sized(4))] true )function (1:110 h (1:101 false false s 1) [(1:121 a 1:112 false false s 0 Plain)] false )function (1:134 i (1:125 false false s 0) [] false )end 1:139",
    ),
    (
        b"frozen struct s*f();obliv int g();obliv frozen long*h(void);struct s{int f;};",
        "struct (1:68 s [(1:74 f 1:70 false false I32 0 [])])function (1:17 f (1:1 true false s 1) [] false -)function (1:31 g (1:21 false true I32 0) [] false -)function (1:53 h (1:35 true true I64 1) [] false -)end 1:78",
    ),
];

/// The first place at which tokens are no program.
pub const REFUSED: [Row; 93] = [
    (b"void oc_main(void) {", "G1 1:21"),
    (b"void oc_main(void) {\n", "G1 2:1"),
    (b"1", "G1 1:1"),
    (b"void", "G1 1:5"),
    (b"struct", "G1 1:7"),
    (b"struct s", "G1 1:9"),
    (b"struct s{", "G1 1:10"),
    (b"struct s{}", "G1 1:10"),
    (b"struct s{int a}", "G1 1:15"),
    (b"struct s{int a;}", "G1 1:17"),
    (b"struct s{int a;}x", "G1 1:17"),
    (b"struct{", "G1 1:7"),
    (b"frozen struct s{", "G1 1:16"),
    (b"obliv struct s{", "G1 1:7"),
    (b"frozen frozen int", "G1 1:8"),
    (b"unsigned bool", "G1 1:10"),
    (b"signed signed", "G1 1:8"),
    (b"long char", "G1 1:6"),
    (b"int f", "G1 1:6"),
    (b"int*", "G1 1:5"),
    (b"int f(", "G1 1:7"),
    (b"int f(void", "G1 1:11"),
    (b"int f(void,", "G1 1:11"),
    (b"int f(int", "G1 1:10"),
    (b"int f(int a[", "G1 1:13"),
    (b"int f(int a[1", "G1 1:14"),
    (b"int f(int a[]b", "G1 1:14"),
    (b"int f(int a,", "G1 1:13"),
    (b"int f(int a,)", "G1 1:13"),
    (b"int f(int)", "G1 1:10"),
    (b"int f()obliv", "G1 1:13"),
    (b"int f()obliv obliv", "G1 1:14"),
    (b"int f()}", "G1 1:8"),
    (b"int f();}", "G1 1:9"),
    (b"int a;", "G1 1:6"),
    (b"else", "G1 1:1"),
    (b"void f(void) {a}", "G1 1:16"),
    (b"void f(void) {a+;}", "G1 1:17"),
    (b"void f(void) {(int;}", "G1 1:19"),
    (b"void f(void) {(a b);}", "G1 1:18"),
    (b"void f(void) {a b;}", "G1 1:17"),
    (b"void f(void) {a?b;}", "G1 1:18"),
    (b"void f(void) {a?b:;}", "G1 1:19"),
    (b"void f(void) {a[1;}", "G1 1:18"),
    (b"void f(void) {a.1;}", "G1 1:17"),
    (b"void f(void) {a->;}", "G1 1:18"),
    (b"void f(void) {f(a,);}", "G1 1:19"),
    (b"void f(void) {f(,a);}", "G1 1:17"),
    (b"void f(void) {sizeof a;}", "G1 1:22"),
    (b"void f(void) {sizeof();}", "G1 1:22"),
    (b"void f(void) {(void)a;}", "G1 1:16"),
    (b"void f(void) {a=;}", "G1 1:17"),
    (b"void f(void) {1=2 3;}", "G1 1:19"),
    (b"void f(void) {a(b)(c);}", "G1 1:19"),
    (b"void f(void) {\"a\"\"b\";}", "G1 1:18"),
    (b"void f(void) {int;}", "G1 1:18"),
    (b"void f(void) {int a b;}", "G1 1:21"),
    (b"void f(void) {int a[-1];}", "G1 1:21"),
    (b"void f(void) {int a[true];}", "G1 1:21"),
    (b"void f(void) {int a[b];}", "G1 1:21"),
    (b"void f(void) {int a=;}", "G1 1:21"),
    (b"void f(void) {int a,;}", "G1 1:21"),
    (b"void f(void) {int*,a;}", "G1 1:19"),
    (b"void f(void) {frozen a;}", "G1 1:22"),
    (b"void f(void) {obliv struct s a;}", "G1 1:21"),
    (b"void f(void) {obliv a;}", "G1 1:21"),
    (b"void f(void) {obliv;}", "G1 1:20"),
    (b"void f(void) {if a;}", "G1 1:18"),
    (b"void f(void) {if();}", "G1 1:18"),
    (b"void f(void) {if(a)}", "G1 1:20"),
    (b"void f(void) {if(a)else;}", "G1 1:20"),
    (b"void f(void) {if(a);;else;}", "G1 1:22"),
    (b"void f(void) {if(a)int b;}", "G1 1:20"),
    (b"void f(void) {else;}", "G1 1:15"),
    (b"void f(void) {while(a)}", "G1 1:23"),
    (b"void f(void) {while();}", "G1 1:21"),
    (b"void f(void) {for(;);}", "G1 1:20"),
    (b"void f(void) {for(;;;);}", "G1 1:21"),
    (b"void f(void) {for(a);}", "G1 1:20"),
    (b"void f(void) {for(int a);}", "G1 1:24"),
    (b"void f(void) {for(int a;;)int b;}", "G1 1:27"),
    (b"void f(void) {~obliv{}}", "G1 1:21"),
    (b"void f(void) {~obliv(1){}}", "G1 1:22"),
    (b"void f(void) {~obliv(a)b;}", "G1 1:24"),
    (b"void f(void) {~obliv(a){}", "G1 1:26"),
    (b"void f(void) {return a}", "G1 1:23"),
    (b"void f(void) {return int;}", "G1 1:22"),
    (b"void f(void) {break a;}", "G1 1:21"),
    (b"void f(void) {continue 1;}", "G1 1:24"),
    (b"void f(void) {}}", "G1 1:16"),
    (b"void f(void) {{}", "G1 1:17"),
    (b"void f(void) {void g(){}}", "G1 1:15"),
    (b"void f(void) {struct s{int a;};}", "G1 1:23"),
];

/// Sources whose parts are repeated so often.
pub const LOADS: [(Repeated, u32, &str); 18] = [
    (
        ["void oc_main(void) {int r;r=", "(", "1", ")", ";}"],
        496,
        "G2 1:1021",
    ),
    (["", "[;", "", "", ""], 501, "G2 1:1001"),
    (["", "(;", "", "", ""], 501, "G2 1:1001"),
    (["", "{", "", "", ""], 1001, "G2 1:1001"),
    (["", "[", "", "", ""], 1001, "G2 1:1001"),
    (["", ";", "", "", ""], 2000, "G1 1:1"),
    (["", "();", "", "", ""], 1000, "G1 1:1"),
    (["", "(;)", "", "", ""], 334, "G2 1:1001"),
    (["", "{}", "", "", ""], 1000, "G1 1:1"),
    (["", "{}else ", "", "", ""], 501, "G2 1:3501"),
    (["", ";else ", "", "", ""], 501, "G2 1:3001"),
    (["", "{;}", "", "", ""], 1000, "G1 1:1"),
    (["", "a,", "", "", ""], 501, "G2 1:1001"),
    (["", "a;", "", "", ""], 1000, "G1 1:1"),
    (["", "])", "", "", ""], 501, "G2 1:1001"),
    (["", "{a}a", "", "", ""], 999, "G1 1:1"),
    (["", "{a}else ", "", "", ""], 501, "G2 1:3995"),
    (["}", "}{", "", "", ""], 1001, "G1 1:1"),
];

/// The deepest sources of each kind: how often their parts are repeated, and the refusal of one time more.
pub const DEEPEST: [(&str, Repeated, u32, &str); 20] = [
    ("blocks", ["void f(){", "{", "", "}", "}"], 994, "G2 1:1005"),
    (
        "prefixes",
        ["void f(){", "- ", "a", "", ";}"],
        993,
        "G2 1:1999",
    ),
    (
        "casts",
        ["void f(){", "(int)", "a", "", ";}"],
        331,
        "G2 1:1669",
    ),
    (
        "parentheses",
        ["void f(){", "(", "a", ")", ";}"],
        496,
        "G2 1:1005",
    ),
    (
        "calls",
        ["void f(){", "a(", "", ")", ";}"],
        331,
        "G2 1:1005",
    ),
    (
        "indices",
        ["void f(){", "a[", "a", "]", ";}"],
        331,
        "G2 1:1005",
    ),
    (
        "suffixes",
        ["void f(){a", "[1]", "", "", ";}"],
        331,
        "G2 1:1005",
    ),
    ("sums", ["void f(){", "a+", "a", "", ";}"], 496, "G2 1:1005"),
    (
        "assignments",
        ["void f(){", "a=", "a", "", ";}"],
        496,
        "G2 1:1005",
    ),
    (
        "choices",
        ["void f(){", "a?a:", "a", "", ";}"],
        248,
        "G2 1:1005",
    ),
    (
        "inner choices",
        ["void f(){", "a?", "a", ":a", ";}"],
        248,
        "G2 1:1005",
    ),
    (
        "stars",
        ["void f(){int ", "*", "a", "", ";}"],
        992,
        "G2 1:1008",
    ),
    (
        "lengths",
        ["void f(){int a", "[1]", "", "", ";}"],
        330,
        "G2 1:1008",
    ),
    (
        "ifs",
        ["void f(){", "if(a)", "", "", ";}"],
        248,
        "G2 1:1254",
    ),
    (
        "whiles",
        ["void f(){", "while(a)", "", "", ";}"],
        248,
        "G2 1:2001",
    ),
    (
        "fors",
        ["void f(){", "for(;;)", "", "", ";}"],
        198,
        "G2 1:1403",
    ),
    (
        "else chains",
        ["void f(){", "if(a);else ", "", "", ";}"],
        165,
        "G2 1:1831",
    ),
    (
        "ifs with else",
        ["void f(){", "if(a)", ";", "else;", "}"],
        165,
        "G2 1:1666",
    ),
    (
        "obliv ifs",
        ["void f(){", "obliv if(a){", "", "}", "}"],
        165,
        "G2 1:2001",
    ),
    (
        "always blocks",
        ["void f(){", "~obliv(a){", "", "}", "}"],
        165,
        "G2 1:1669",
    ),
];
