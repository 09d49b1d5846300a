// What document 01 states of its bench settings. A line is a setting's letter, the words of a request, and behind the colon the numbers stated:
// refused is 0 for a plan, else the refusal's number; VCOSEL is 0 for wide and 1 for medium.
pub const TABLE: &str =
    "A odd1=0 sys=250M : refused=0 pll1.vcosel=0 pll1.m=8 pll1.n=125 pll1.divp=2 latency=5
B sys=250M : refused=0 pll1.vcosel=1 pll1.m=16 pll1.n=125 pll1.divp=1
C pll2=fractional pll2.p=12.288M : refused=0 pll2.m=18 pll2.ref=1777777 pll2.n=235 pll2.divp=34 pll2.fracn=66 pll2.vco=417791904 pll2.hertz=12287997
D pll2.p=12.288M : refused=0 pll2.hertz=12287576
E pll2.p=419999999 : refused=0 pll2.vcosel=1
E pll2.p=420000000 : refused=0 pll2.vcosel=0
E pll2.p=560000000 : refused=9
F pll2.p=1634242 : refused=0 pll2.target=209182976 pll2.divp=128
F pll2.p=1634241 : refused=10
G pll2.p=200M pll2.q=1562500 : refused=0 pll2.divq=128
G pll2.p=200M pll2.q=1562499 : refused=8
H odd2=0 pll2.p=1M : refused=14
H odd2=0 pll2.p=80M pll2.q=200M : refused=15
I pll2.p=30M pll2.q=100M : refused=0 pll2.hertz=30769230
I pll2=fractional pll2.p=30M pll2.q=100M : refused=13
J sys=250M ahb=50M : refused=0 ahb=62500000
K sys=32M ahb=820513 : refused=0 hpre=16
K sys=32M ahb=820512 : refused=0 hpre=64
L mco1=hsi:2133334 : refused=0 mco1pre=15
L mco1=hsi:2133333 : refused=23
M hse=42M : refused=0 latency=0
M hse=42000001 : refused=0 latency=1
M hse=251000001 : refused=0 latency=7
N hse=100 ahb=1 : refused=19
O hse=126M pll2.p=250M : refused=0 pll2.m=63
O hse=126000001 pll2.p=250M : refused=11
";
